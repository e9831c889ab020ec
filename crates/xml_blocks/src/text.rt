//! Texts and their characters.

ghost use Rattle.std.specs.Prelude.{◌≡◌, ◌∷◌, ◌<◌, ◌^◌, [], true, MatchOption, IfSome, length, take, drop, slice_index};
ghost use Rattle.std.specs.List.{list_all, prefix_len};
ghost use Rattle.std.specs.Str.{chars};
ghost use Rattle.xml_blocks.specs.own.Reading.{is_low};
ghost use Rattle.xml_blocks.specs.Xml as spec;

use memchr::memmem;

// The first character, and the text behind it.
pub fn first(text: &str) -> Option<(char, &str)>
    ensures { MatchOption result (chars text.now ≡ []) (λ r. chars text.now ≡ r.0 ∷ chars r.1.now) }
{
    let mut characters = text.chars();
    match characters.next() {
        Some(c) => Some((c, characters.as_str())),
        None => None,
    }
}

// How many characters a text has. In ASCII they are its bytes.
pub fn char_count(text: &str) -> usize
    ensures count { result ≡ length (chars text.now) }
{
    if text.is_ascii() {
        return text.len();
    }
    text.chars().count()
}

// The text behind so many characters, found one by one.
fn walked(text: &str, count: usize) -> &str
    ensures { chars result.now ≡ drop count (chars text.now) }
{
    let mut rest = text;
    let mut left = count;
    'characters: loop {
        if left == 0 {
            return rest;
        }
        let Some((_, more)) = first(rest) else {
            return rest;
        };
        rest = more;
        left -= 1;
    }
}

// The first characters of a text, so many, and the text behind them, found one by one.
fn halves_walked(text: &str, count: usize) -> (&str, &str)
    ensures front { chars result.0.now ≡ take count (chars text.now) }
    ensures back { chars result.1.now ≡ drop count (chars text.now) }
{
    let rest = walked(text, count);
    let (front, _) = text.split_at(text.len() - rest.len());
    (front, rest)
}

// The same texts. Where the characters are ASCII, they are as many bytes.
pub fn halves(text: &str, count: usize) -> (&str, &str)
    ensures front { chars result.0.now ≡ take count (chars text.now) }
    ensures back { chars result.1.now ≡ drop count (chars text.now) }
{
    if let Some((front, rest)) = text.split_at_checked(count) {
        if front.is_ascii() {
            return (front, rest);
        }
    }
    halves_walked(text, count)
}

// The text behind so many characters.
pub fn behind(text: &str, count: usize) -> &str
    ensures { chars result.now ≡ drop count (chars text.now) }
{
    halves(text, count).1
}

// The first characters of a text, so many.
pub fn before(text: &str, count: usize) -> &str
    ensures { chars result.now ≡ take count (chars text.now) }
{
    halves(text, count).0
}

// The character at an index, NUL past the end.
pub fn char_at(text: &str, index: usize) -> char
    ensures { result ≡ slice_index (chars text.now) index }
{
    match first(behind(text, index)) {
        Some((c, _)) => c,
        None => '\0',
    }
}

// Whether a text begins with a mark.
pub fn begins(text: &str, mark: &[char]) -> bool
    ensures { result ≡ spec.begins_with_mark mark.now (chars text.now) }
{
    let mut rest = text;
    let mut left = mark;
    'characters: loop {
        let Some((wanted, left_behind)) = left.split_first() else {
            return true;
        };
        let Some((c, more)) = first(rest) else {
            return false;
        };
        if c != *wanted {
            return false;
        }
        rest = more;
        left = left_behind;
    }
}

// How many characters come before a mark of ASCII, if it comes.
pub fn until(text: &str, mark: &[u8]) -> Option<usize>
    requires ascii { list_all is_low mark.now ≡ true }
    requires mark { 0 < length mark.now }
    requires small { length (chars text.now) < 2 ^ 63 }
    ensures count { result ≡ spec.until mark.now (chars text.now) }
    ensures small { IfSome result (λ n. n < 2 ^ 63) }
{
    match memmem::find(text.as_bytes(), mark) {
        Some(at) => {
            let (front, _) = text.split_at(at);
            Some(char_count(front))
        }
        None => None,
    }
}

// Whether a character is white space.
pub fn is_space(c: char) -> bool
    ensures { result ≡ spec.is_space c }
{
    c == ' ' || c == '\t' || c == '\n' || c == '\r'
}

// Whether a character is a quote.
pub fn is_quote(c: char) -> bool
    ensures { result ≡ spec.is_quote c }
{
    c == '"' || c == '\''
}

// How much white space a text begins with.
fn space_len(text: &str) -> usize
    ensures { result ≡ prefix_len spec.is_space (chars text.now) }
{
    text.chars().take_while(|c| is_space(*c)).count()
}

// A text without the white space at its front.
pub fn without_space(text: &str) -> &str
    ensures { chars result.now ≡ spec.without_space (chars text.now) }
{
    behind(text, space_len(text))
}
