//! Bytes and numbers added to a text of bounded length.

ghost use Rattle.std.specs.Prelude.{◌≡◌, ◌+◌, ◌≤◌, ◌++◌, length};
ghost use Rattle.arrayvec.specs.ArrayVec.{array_vec_len};
ghost use Rattle.ctrsim_cli.specs.SampleText.{dec};

use arrayvec::ArrayVec;

// Adds bytes.
pub(crate) fn put<const N: usize>(out: &mut ArrayVec<u8, N>, bytes: &[u8])
    requires { array_vec_len out.old + length bytes.now ≤ N }
    ensures items { out.new.items ≡ out.old.items ++ bytes.now }
    ensures len { array_vec_len out.new ≡ array_vec_len out.old + length bytes.now }
{
    out.try_extend_from_slice(bytes).unwrap();
}

// The decimal digits of a number, without leading zeros.
#[tactic(auto, using(crate::proofs::TextDigits::dec_step, crate::proofs::TextDigits::dec_digit, crate::proofs::TextDigits::dec_most, crate::proofs::TextDigits::dec_some, crate::proofs::TextDigits::dec_room))]
fn digits_of(number: u64) -> ArrayVec<u8, 20>
    ensures items { result.items ≡ dec number }
    ensures few { array_vec_len result ≤ 20 }
{
    let mut digits = ArrayVec::new();
    let mut rest = number;
    while rest >= 10 {
        digits.insert(0, b'0' + (rest % 10) as u8);
        rest /= 10;
    }
    digits.insert(0, b'0' + rest as u8);
    digits
}

// Adds the decimal digits of a number.
pub(crate) fn put_decimal<const N: usize>(out: &mut ArrayVec<u8, N>, number: u64)
    requires { array_vec_len out.old + 20 ≤ N }
    ensures items { out.new.items ≡ out.old.items ++ dec number }
    ensures most { array_vec_len out.new ≤ array_vec_len out.old + 20 }
{
    put(out, digits_of(number).as_slice());
}
