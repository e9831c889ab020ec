//! Attribute lists that say that a block is ABNF, and comments.

ghost use Rattle.std.specs.Prelude.{◌≡◌, slice_index, true};
ghost use Rattle.markdown_blocks.specs.Fences as spec;

use crate::line::{are_blank, without_blanks};
use origins::is_blank;

// Whether a text begins with these small letters and other characters, in any case of letters.
fn begins(word: &[char], text: &[char]) -> bool
    ensures { result ≡ spec.begins word.now text.now }
{
    if text.len() < word.len() {
        return false;
    }
    for (at, c) in word.iter().enumerate() {
        if text[at].to_ascii_lowercase() != *c {
            return false;
        }
    }
    true
}

// A character of a text, and the first of all behind its end.
fn char_at(text: &[char], at: usize) -> char
    ensures { result ≡ slice_index text.now at }
{
    match text.get(at) {
        Some(c) => *c,
        None => '\0',
    }
}

// Whether a text begins with a word of an attribute list, and the word ends there.
fn begins_word(word: &[char], text: &[char]) -> bool
    ensures { result ≡ spec.begins_word word.now text.now }
{
    let behind = char_at(text, word.len());
    begins(word, text) && (is_blank(behind) || behind == '}')
}

// Whether a text begins with an attribute that says ABNF.
fn begins_abnf(text: &[char]) -> bool
    ensures { result ≡ spec.begins_abnf text.now }
{
    begins_word(&['.', 'a', 'b', 'n', 'f'], text)
        || begins_word(
            &[
                '.', 'l', 'a', 'n', 'g', 'u', 'a', 'g', 'e', '-', 'a', 'b', 'n', 'f',
            ],
            text,
        )
        || begins_word(
            &['t', 'y', 'p', 'e', '=', '"', 'a', 'b', 'n', 'f', '"'],
            text,
        )
}

// Whether such an attribute stands before the first `}`.
fn has_abnf(text: &[char]) -> bool
    ensures { result ≡ spec.has_abnf true text.now }
{
    let mut start = true;
    for (at, c) in text.iter().enumerate() {
        if *c == '}' {
            return false;
        }
        if start && begins_abnf(&text[at..]) {
            return true;
        }
        start = is_blank(*c);
    }
    false
}

// Whether a line, without its line end, is an attribute list that says that a block is ABNF.
pub fn says_abnf(line: &[char]) -> bool
    ensures { result ≡ spec.says_abnf line.now }
{
    match without_blanks(line) {
        ['{', ':', attributes @ ..] => has_abnf(attributes),
        ['{', attributes @ ..] => has_abnf(attributes),
        _ => false,
    }
}

// Whether a text has the end of a comment, `-->`.
pub fn has_end(text: &[char]) -> bool
    ensures { result ≡ spec.has_end text.now }
{
    for at in 0..text.len() {
        if begins(&['-', '-', '>'], &text[at..]) {
            return true;
        }
    }
    false
}

// Whether a line, without its line end, begins a comment that goes on behind it.
pub fn begins_comment(line: &[char]) -> bool
    ensures { result ≡ spec.begins_comment line.now }
{
    let text = without_blanks(line);
    begins(&['<', '!', '-', '-'], text) && !has_end(text)
}

// Whether a line, without its line end, begins what kramdown leaves out.
pub fn begins_extension(line: &[char]) -> bool
    ensures { result ≡ spec.begins_extension line.now }
{
    let word = ['{', ':', ':', 'c', 'o', 'm', 'm', 'e', 'n', 't', '}'];
    let text = without_blanks(line);
    text.len() >= 11 && begins(&word, text) && are_blank(&text[11..])
}

// Whether a line, without its line end, ends that.
pub fn ends_extension(line: &[char]) -> bool
    ensures { result ≡ spec.ends_extension line.now }
{
    begins(&['{', ':', '/'], without_blanks(line))
}
