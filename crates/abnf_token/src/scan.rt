//! The tokens of a line, in one pass over it.
//!
//! Most tokens are known by their first byte, and read by a loop of their own or by none. Numbers, repeats, prose and bytes that begin no
//! token go through the machine that defines all classes.

ghost use Rattle.std.specs.Prelude.{◌≡◌, ◌∷◌, ◌<◌, ◌≤◌, ◌+◌, ◌^◌, [], length, take, drop, slice_index, Option, None, true, false};
ghost use Rattle.std.specs.Str.{IsCharBoundary, continuation_len};
ghost use Rattle.abnf_token.specs.Rest.{HasNoClose};
ghost use Rattle.abnf_token.specs.Tokens.{IsNext, HasOneAnswer, HasSlices, HasJoin, AreApart, GivesTokensOf};
ghost use Rattle.abnf_token.specs.own.Machine.{begin, munch};

use crate::machine::{State, accepted, begin, is_blank_byte, is_name_byte, is_quotable, step};
use crate::token::{Kind, Token};
use std::marker::Model;

/// The tokens of a line that are still to come, from left to right. [`tokens`] makes one.
#[derive(Debug, Drop)]
pub struct TokenIter<'t> {
    rest: &'t str,
    line: usize,
    start: usize,
    /// Whether a `>` may still be left. Once a `<` has found none, no later `<` looks for it again: else a line of many
    /// `<` would be read to its end from each of them.
    may_close: bool,
}

impl<'t> Model for TokenIter<'t> {
    ghost use Rattle.std.specs.Prelude.{◌≡◌, ◌+◌, ◌<◌, ◌^◌, false, length};
    ghost use Rattle.abnf_token.specs.Rest.{Rest, HasNoClose};

    ghost Value = { Rest };

    ghost view = { λ tokens. record { text = tokens.rest.now; line = tokens.line; start = tokens.start } };

    ghost invariant = { λ tokens. (tokens.start + length tokens.rest.now < 2 ^ 64) × (tokens.may_close ≡ false → HasNoClose tokens.rest.now) };
}

/// The class and the length of the longest front in a class.
fn longest(bytes: &[u8]) -> Option<(Kind, usize)>
    ensures { result ≡ munch State.Start 0 None bytes.now }
{
    let mut state = State::Start;
    let mut found = None;
    for i in 0..bytes.len() {
        state = step(state, bytes[i]);
        if let State::Dead = state {
            return found;
        }
        if let Some(kind) = accepted(state) {
            found = Some((kind, i + 1));
        }
    }
    found
}

/// The same where a name begins.
fn longest_name(bytes: &[u8]) -> Option<(Kind, usize)>
    requires some { 0 < length bytes.now }
    requires first { begin (slice_index bytes.now 0) ≡ State.Name }
    ensures { result ≡ munch State.Start 0 None bytes.now }
{
    for i in 1..bytes.len() {
        if !is_name_byte(bytes[i]) {
            return Some((Kind::Name, i));
        }
    }
    Some((Kind::Name, bytes.len()))
}

/// The same where blanks begin.
fn longest_blank(bytes: &[u8]) -> Option<(Kind, usize)>
    requires some { 0 < length bytes.now }
    requires first { begin (slice_index bytes.now 0) ≡ State.Blank }
    ensures { result ≡ munch State.Start 0 None bytes.now }
{
    for i in 1..bytes.len() {
        if !is_blank_byte(bytes[i]) {
            return Some((Kind::Blank, i));
        }
    }
    Some((Kind::Blank, bytes.len()))
}

/// The same where a quotation begins.
fn longest_quotation(bytes: &[u8]) -> Option<(Kind, usize)>
    requires some { 0 < length bytes.now }
    requires first { begin (slice_index bytes.now 0) ≡ State.Quote }
    ensures { result ≡ munch State.Start 0 None bytes.now }
{
    for i in 1..bytes.len() {
        if bytes[i] == b'"' {
            return Some((Kind::Quoted, i + 1));
        }
        if !is_quotable(bytes[i]) {
            return None;
        }
    }
    None
}

/// The same where `=` begins: `=/` or `=`.
fn longest_defined_as(bytes: &[u8]) -> Option<(Kind, usize)>
    requires some { 0 < length bytes.now }
    requires first { slice_index bytes.now 0 ≡ 61 }
    ensures { result ≡ munch State.Start 0 None bytes.now }
{
    if bytes.len() == 1 {
        return Some((Kind::Defines, 1));
    }
    if bytes[1] == b'/' {
        Some((Kind::Adds, 2))
    } else {
        Some((Kind::Defines, 1))
    }
}

/// The same where a comment begins, which goes on to the line's end.
fn longest_comment(bytes: &[u8]) -> Option<(Kind, usize)>
    requires some { 0 < length bytes.now }
    requires first { begin (slice_index bytes.now 0) ≡ State.Comment }
    ensures { result ≡ munch State.Start 0 None bytes.now }
{
    Some((Kind::Comment, bytes.len()))
}

/// The same, without the machine where the first byte says enough, and without a look at the rest where a `<` is known to have
/// no `>` behind it.
#[inline(always)]
fn longest_unless(bytes: &[u8], may_close: bool) -> Option<(Kind, usize)>
    requires some { 0 < length bytes.now }
    requires closes { may_close ≡ false → HasNoClose bytes.now }
    ensures { result ≡ munch State.Start 0 None bytes.now }
{
    let first = bytes[0];
    match first {
        b' ' | b'\t' => longest_blank(bytes),
        b'"' => longest_quotation(bytes),
        b';' => longest_comment(bytes),
        b'=' => longest_defined_as(bytes),
        b'/' => Some((Kind::Slash, 1)),
        b'(' => Some((Kind::ParenL, 1)),
        b')' => Some((Kind::ParenR, 1)),
        b'[' => Some((Kind::BracketL, 1)),
        b']' => Some((Kind::BracketR, 1)),
        b'<' if !may_close => None,
        _ if first.is_ascii_alphabetic() => longest_name(bytes),
        _ => longest(bytes),
    }
}

/// The length in bytes of the character that begins with this byte.
fn char_len(first: u8) -> usize
    ensures { result ≡ continuation_len first + 1 }
{
    if first < 0x80 {
        1
    } else if first < 0xE0 {
        2
    } else if first < 0xF0 {
        3
    } else {
        4
    }
}

/// The class and the length of the next token.
fn scan(rest: &str, may_close: bool) -> (Kind, usize)
    requires some { 0 < length rest.now }
    requires closes { may_close ≡ false → HasNoClose rest.now }
    ensures next { IsNext result.0 (take result.1 rest.now) rest.now }
    ensures within { result.1 ≤ length rest.now }
    ensures boundary { IsCharBoundary rest.now result.1 }
{
    let bytes = rest.as_bytes();
    match longest_unless(bytes, may_close) {
        Some(found) => found,
        None => (Kind::Bad, char_len(bytes[0])),
    }
}

/// Whether a `>` may still be left behind this next token: none is where a `<` has found none.
fn may_close_after(may_close: bool, kind: Kind, text: &str, rest: &str) -> bool
    requires next { IsNext kind text.now rest.now }
    requires closes { may_close ≡ false → HasNoClose rest.now }
    ensures { result ≡ false → HasNoClose rest.now }
{
    match kind {
        Kind::Bad => may_close && text.as_bytes()[0] != b'<',
        _ => may_close,
    }
}

impl<'t> Iterator for TokenIter<'t> {
    ghost use Rattle.std.specs.Iterator.{item_count};
    ghost use Rattle.abnf_token.specs.Tokens.{GivesToken, bytes_left};

    type Item = Token<'t>;

    ghost next_gives = { GivesToken };

    ghost remaining = { item_count bytes_left };

    /// The next token from left to right, the longest in a class or one bad character; `None` at the line's end, and from
    /// then on.
    fn next(&mut self) -> Option<Token<'t>> {
        if self.rest.is_empty() {
            return None;
        }
        let (kind, len) = scan(self.rest, self.may_close);
        let (text, rest) = self.rest.split_at(len);
        let token = Token {
            kind,
            text,
            line: self.line,
            start: self.start,
        };
        self.may_close = may_close_after(self.may_close, kind, text, self.rest);
        self.start += len;
        self.rest = rest;
        Some(token)
    }
}

/// The tokens of a line, from left to right.
///
/// `text` is the line without its line end, and `line` its number, which each token carries. The texts of the tokens
/// join to the line, and each is the slice of the line from the token's `start`. At each place the token is the longest
/// text of a class; where no class but [`Kind::Bad`] fits, it is one character. This cuts each line in just one way.
/// The terminals are those of RFC 5234 section 4 and RFC 7405 section 2.2, but that comments and prose may hold any
/// character.
///
/// The call and the iterator allocate nothing, and take time in proportion to the line's length.
pub fn tokens<'t>(text: &'t str, line: usize) -> TokenIter<'t>
    ensures value { result ≡ record { text = text.now; line = line; start = 0 } }
    ensures all { GivesTokensOf result }
    ensures apart { AreApart }
    ensures one { HasOneAnswer text.now }
    ensures joined { HasJoin text.now }
    ensures slices { HasSlices text.now }
{
    TokenIter {
        rest: text,
        line,
        start: 0,
        may_close: true,
    }
}
