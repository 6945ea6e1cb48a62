//! The words of a line, and the numbers that they spell.

ghost use Rattle.std.specs.Prelude.{◌≡◌, ◌<◌, ◌≤◌, length, drop};
ghost use Rattle.std.specs.List.{position_or_len};
ghost use Rattle.sched_text.specs.Lines.{is_space, words, word};
ghost use Rattle.sched_text.specs.Numbers.{digit_value, number};

/// How many words a line has.
pub(crate) fn word_count(line: &[u8]) -> usize
    ensures count { result ≡ length (words line.now) }
    ensures some { 0 < result }
{
    let mut count = 1;
    for byte in line {
        if *byte == b' ' {
            count += 1;
        }
    }
    count
}

// Where the first space is, or the length of the line where there is none.
fn first_space(line: &[u8]) -> usize
    ensures first { result ≡ position_or_len is_space line.now }
    ensures within { result ≤ length line.now }
{
    for at in 0..line.len() {
        if line[at] == b' ' {
            return at;
        }
    }
    line.len()
}

/// The first word, and what follows the space after it.
pub(crate) fn split_word(line: &[u8]) -> (&[u8], &[u8])
    ensures first { result.0.now ≡ word line.now 0 }
    ensures rest { 1 < length (words line.now) → words result.1.now ≡ drop 1 (words line.now) }
{
    let (first, rest) = line.split_at(first_space(line));
    match rest {
        [_, after @ ..] => (first, after),
        [] => (first, rest),
    }
}

// The number that a digit stands for, of either case, or 16.
fn digit_value(byte: u8) -> u128
    ensures { result ≡ digit_value byte }
{
    match byte {
        b'0'..=b'9' => (byte - b'0') as u128,
        b'A'..=b'F' => (byte - b'A' + 10) as u128,
        b'a'..=b'f' => (byte - b'a' + 10) as u128,
        _ => 16,
    }
}

/// The number that a word spells in a base up to 16, where it has one digit at least and nothing
/// else. One that is past the end of 64 bits counts as 2^64.
pub(crate) fn number(word: &[u8], base: u128) -> Option<u128>
    requires low { 1 ≤ base }
    requires high { base ≤ 16 }
    ensures { result ≡ number base word.now }
{
    if word.is_empty() {
        return None;
    }
    let mut value = 0;
    for byte in word {
        let digit = digit_value(*byte);
        if digit >= base {
            return None;
        }
        value = (value * base + digit).min(1 << 64);
    }
    Some(value)
}
