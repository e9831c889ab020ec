//! How many units characters have, and which fit into so many.

ghost use Rattle.std.specs.Prelude.{◌≡◌, ◌≤◌, length, take, sum_by};
ghost use Rattle.std.specs.Char.{len_utf8};
ghost use Rattle.std.specs.Str.{chars, encode_utf8_all};
ghost use Rattle.ls_text.specs.Lines.{fitting, units};

use crate::position::{Encoding, Units};
use crate::snapshot::MAX_BYTES;

// The characters at the front of a text that have at most so many units.
#[derive(Clone, Copy)]
pub struct Fit {
    pub count: usize,
    // The bytes of these characters.
    pub bytes: usize,
}

// The units of a character.
fn width(encoding: Encoding, c: char) -> u32
    ensures { result ≡ units encoding c }
{
    match encoding.units() {
        Units::Utf8 => c.len_utf8() as u32,
        Units::Utf16 => if (c as u32) < 0x1_0000 { 1 } else { 2 },
        Units::Utf32 => 1,
    }
}

// The number of characters.
pub fn char_count(text: &str) -> usize
    ensures count { result ≡ length (chars text.now) }
    ensures bound { result ≤ length text.now }
{
    if text.is_ascii() {
        return text.len();
    }
    text.chars().count()
}

// The characters at the front of the text that fit into these units.
pub fn chars_fitting(text: &str, encoding: Encoding, limit: usize) -> Fit
    ensures count { result.count ≡ fitting (units encoding) (chars text.now) limit }
    ensures bytes { result.bytes ≡ length (encode_utf8_all (take result.count (chars text.now))) }
{
    let mut left = limit;
    let mut count = 0usize;
    let mut bytes = 0usize;
    for c in text.chars() {
        let width = width(encoding, c) as usize;
        if width > left {
            return Fit { count, bytes };
        }
        left -= width;
        count += 1;
        bytes += c.len_utf8();
    }
    Fit { count, bytes }
}

// The characters at the front of a text of so many that fit into these units. In ASCII they are counted at once.
pub fn fitting(text: &str, char_count: usize, encoding: Encoding, limit: usize) -> Fit
    requires { char_count ≡ length (chars text.now) }
    ensures count { result.count ≡ fitting (units encoding) (chars text.now) limit }
    ensures bytes { result.bytes ≡ length (encode_utf8_all (take result.count (chars text.now))) }
{
    if text.len() == char_count {
        let count = limit.min(char_count);
        return Fit {
            count,
            bytes: count,
        };
    }
    chars_fitting(text, encoding, limit)
}

// The units of so many characters at the front of the text, or of all where it has fewer.
fn units_of_chars(text: &str, encoding: Encoding, count: usize) -> u32
    requires { length text.now ≤ MAX_BYTES }
    ensures { result ≡ sum_by (units encoding) (take count (chars text.now)) }
{
    let mut left = count;
    let mut total = 0u32;
    for c in text.chars() {
        if left == 0 {
            return total;
        }
        left -= 1;
        total += width(encoding, c);
    }
    total
}

// The units of `count` characters at the front of a text, or of all where it has fewer. In ASCII they are counted at once.
pub fn units_before(text: &str, char_count: usize, encoding: Encoding, count: usize) -> u32
    requires characters { char_count ≡ length (chars text.now) }
    requires small { length text.now ≤ MAX_BYTES }
    ensures { result ≡ sum_by (units encoding) (take count (chars text.now)) }
{
    if text.len() == char_count {
        return count.min(char_count) as u32;
    }
    units_of_chars(text, encoding, count)
}

// The units of the characters that are whole in so many bytes at the front of a text. In UTF-8 bytes are units, so nothing is counted there.
pub fn units_in(text: &str, char_count: usize, encoding: Encoding, bytes: usize) -> u32
    requires characters { char_count ≡ length (chars text.now) }
    requires small { length text.now ≤ MAX_BYTES }
    ensures { result ≡ sum_by (units encoding) (take (fitting len_utf8 (chars text.now) bytes) (chars text.now)) }
{
    if let Units::Utf8 = encoding.units() {
        if text.is_char_boundary(bytes) {
            return bytes as u32;
        }
    }
    let before = fitting(text, char_count, Encoding::Utf8, bytes).count;
    units_before(text, char_count, encoding, before)
}
