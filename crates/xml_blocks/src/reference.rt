//! References to characters.

ghost use Rattle.std.specs.Prelude.{◌≡◌, ◌≤◌, ◌<◌, ◌^◌, ◌+◌, IfSome, length};
ghost use Rattle.std.specs.Option.{option_map};
ghost use Rattle.std.specs.Str.{chars};
ghost use Rattle.xml_blocks.specs.own.Reading.{IsBase};
ghost use Rattle.xml_blocks.specs.Xml as spec;

use crate::text::{begins, behind, char_at, first};

// The greatest number of a character.
const GREATEST: u32 = 0x10FFFF;

// The number with a digit more, if a character can have it.
fn with_digit(value: u32, base: u32, c: char) -> Option<u32>
    requires value { value ≤ 0x10FFFF }
    requires base { IsBase base }
    ensures number { result ≡ spec.value_with_digit value base c }
    ensures small { IfSome result (λ n. n ≤ 0x10FFFF) }
{
    let more = value * base + c.to_digit(base)?;
    if more <= GREATEST { Some(more) } else { None }
}

// The character with this number, with the count of characters that name it.
fn named(value: u32, count: usize) -> Option<(char, usize)>
    requires { value ≤ 0x10FFFF }
    ensures named { result ≡ spec.named_value value count }
    ensures count { IfSome result (λ r. r.1 ≡ count) }
{
    match char::from_u32(value) {
        Some(c) => Some((c, count)),
        None => None,
    }
}

// The character whose number has these digits up to a `;`, and how many characters there are with the `;`.
fn number(base: u32, text: &str) -> Option<(char, usize)>
    requires base { IsBase base }
    requires small { length (chars text.now) < 2 ^ 63 }
    ensures number { result ≡ spec.number base 0 (chars text.now) }
    ensures small { IfSome result (λ r. r.1 < 2 ^ 63 + 1) }
{
    let mut rest = text;
    let mut value = 0u32;
    let mut count = 0usize;
    'characters: loop {
        let Some((c, more)) = first(rest) else {
            return None;
        };
        count += 1;
        if c == ';' {
            return named(value, count);
        }
        let Some(next) = with_digit(value, base, c) else {
            return None;
        };
        value = next;
        rest = more;
    }
}

// The same of at least one digit, behind so many characters.
fn numbered(base: u32, front: usize, text: &str) -> Option<(char, usize)>
    requires base { IsBase base }
    requires front { front < 3 }
    requires small { length (chars text.now) < 2 ^ 63 }
    ensures { result ≡ spec.numbered_value base front (chars text.now) }
{
    let digits = behind(text, front);
    let Some(_) = char_at(digits, 0).to_digit(base) else {
        return None;
    };
    match number(base, digits) {
        Some((c, count)) => Some((c, count + front)),
        None => None,
    }
}

// The character that is referred to by its number.
fn by_number(text: &str) -> Option<(char, usize)>
    requires { length (chars text.now) < 2 ^ 63 }
    ensures { result ≡ spec.by_number (chars text.now) }
{
    if begins(text, &['#', 'x']) {
        numbered(16, 2, text)
    } else if begins(text, &['#']) {
        numbered(10, 1, text)
    } else {
        None
    }
}

// The same of one of the names that drafts have for spaces and a hyphen at which no line ends, or for none at which one may.
fn by_name(text: &str) -> Option<(char, usize)>
    requires { length (chars text.now) < 2 ^ 63 }
    ensures { result ≡ spec.by_name (chars text.now) }
{
    if begins(text, &['n', 'b', 's', 'p', ';']) {
        Some(('\u{A0}', 5))
    } else if begins(text, &['n', 'b', 'h', 'y', ';']) {
        Some(('\u{2011}', 5))
    } else if begins(text, &['z', 'w', 's', 'p', ';']) {
        Some(('\u{200B}', 5))
    } else if begins(text, &['w', 'j', ';']) {
        Some(('\u{2060}', 3))
    } else {
        by_number(text)
    }
}

// The reference that stands here without its `&`: its character, and how many characters it has.
pub fn reference(text: &str) -> Option<(char, usize)>
    requires { length (chars text.now) < 2 ^ 63 }
    ensures { result ≡ spec.reference (chars text.now) }
{
    if begins(text, &['l', 't', ';']) {
        Some(('<', 3))
    } else if begins(text, &['g', 't', ';']) {
        Some(('>', 3))
    } else if begins(text, &['a', 'm', 'p', ';']) {
        Some(('&', 4))
    } else if begins(text, &['q', 'u', 'o', 't', ';']) {
        Some(('"', 5))
    } else if begins(text, &['a', 'p', 'o', 's', ';']) {
        Some(('\'', 5))
    } else {
        by_name(text)
    }
}

/// How many characters a reference has behind its `&`, up to its `;` and with it, by the text there; `None` where that begins none
/// of the references that a block of ABNF may have.
pub fn reference_len(text: &str) -> Option<usize>
    requires { length (chars text.now) < 2 ^ 63 }
    ensures { result ≡ option_map (λ r. r.1) (spec.reference (chars text.now)) }
{
    match reference(text) {
        Some((_, count)) => Some(count),
        None => None,
    }
}
