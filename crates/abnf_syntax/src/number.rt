//! The numbers of repeats and of numbers.

ghost use Rattle.std.specs.Prelude.{◌≡◌, ◌+◌, ◌*◌, ◌^◌, nat_lt, if◌then◌else◌, Some, None};
ghost use Rattle.abnf_syntax.specs.Numbers as numbers;
ghost use Rattle.abnf_syntax.specs.Fitting as fitting;

use abnf_token::{Kind, Token, base_of, digit_value};

/// Whether the byte stands between two numbers.
fn is_sign(byte: u8) -> bool
    ensures { result ≡ numbers.is_sign byte }
{
    byte == b'*' || byte == b'.' || byte == b'-'
}

/// The value of digits and one more, where it is at most 4,294,967,295.
fn value_with(value: u32, base: u32, digit: u32) -> Option<u32>
    ensures { result ≡ (if nat_lt (value * base + digit) (2 ^ 32) then Some (value * base + digit) else None) }
{
    value.checked_mul(base)?.checked_add(digit)
}

/// Whether the digits between signs give numbers up to 4,294,967,295.
fn are_small(bytes: &[u8], base: u32) -> bool
    ensures { result ≡ fitting.fit base 0 bytes.now }
{
    let mut value = 0;
    for byte in bytes {
        if is_sign(*byte) {
            value = 0;
            continue;
        }
        let digit = digit_value(*byte);
        if digit >= base {
            return false;
        }
        match value_with(value, base, digit) {
            Some(next) => value = next,
            None => return false,
        }
    }
    true
}

/// Whether the numbers of a token are at most 4,294,967,295.
pub(crate) fn numbers_fit(token: &Token<'_>) -> bool
    ensures { result ≡ numbers.numbers_fit token.now.kind token.now.text.now }
{
    let bytes = token.text.as_bytes();
    match token.kind {
        Kind::Repeat => are_small(bytes, 10),
        Kind::Number if bytes.len() >= 2 => are_small(&bytes[2..], base_of(bytes[1])),
        _ => true,
    }
}
