// Numbers of the command line.
ghost use Rattle.std.specs.Prelude.{◌≡◌, ℕ, ◌≤◌, ◌<◌, Some, IfSome, IsNone};
ghost use Rattle.ctrsim_cli.specs.Numbers.{IsDecimal, IsHexDigit, hex_digit, IsHexadecimal};

/// The value of decimal digits, one at least, and at most `most`.
pub(crate) fn decimal(word: &[u8], most: usize) -> Option<u64>
    requires { most ≤ 16 }
    ensures some { IfSome result (λ n. IsDecimal most word.now n) }
    ensures only { (n : ℕ) → IsDecimal most word.now n → result ≡ Some n }
{
    if word.is_empty() || word.len() > most {
        return None;
    }
    let mut value = 0;
    for digit in word {
        if *digit < b'0' || *digit > b'9' {
            return None;
        }
        value = 10 * value + u64::from(*digit - b'0');
    }
    Some(value)
}

// The number that a hexadecimal digit of either case stands for.
fn hex_digit(digit: u8) -> Option<u8>
    ensures some { IfSome result (λ n. IsHexDigit digit × (n ≡ hex_digit digit) × (n < 16)) }
    ensures only { IsNone result → IsHexDigit digit → ⊥ }
{
    match digit {
        b'0'..=b'9' => Some(digit - b'0'),
        b'A'..=b'F' => Some(digit - b'A' + 10),
        b'a'..=b'f' => Some(digit - b'a' + 10),
        _ => None,
    }
}

/// The value of 1 to 16 hexadecimal digits of either case.
pub(crate) fn hexadecimal(word: &[u8]) -> Option<u64>
    ensures some { IfSome result (λ n. IsHexadecimal word.now n) }
    ensures only { (n : ℕ) → IsHexadecimal word.now n → result ≡ Some n }
{
    if word.is_empty() || word.len() > 16 {
        return None;
    }
    let mut value = 0;
    for digit in word {
        value = 16 * value + u64::from(hex_digit(*digit)?);
    }
    Some(value)
}
