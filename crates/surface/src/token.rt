//! `abnf_token`: the tokens of a line.
ghost use Rattle.std.specs.Prelude.{◌+◌, ◌<◌, ◌^◌, length};
ghost use Rattle.abnf_token.specs.Marks.{IsMarkOf};

use abnf_token::{Folded, Kind, Token, TokenIter, TokenMark};
use std::alloc::{AllocError as Memory, Global};
use std::hash::Hash;

pub const KINDS: [Kind; 15] = [
    Kind::Name,
    Kind::Defines,
    Kind::Adds,
    Kind::Slash,
    Kind::Repeat,
    Kind::ParenL,
    Kind::ParenR,
    Kind::BracketL,
    Kind::BracketR,
    Kind::Quoted,
    Kind::Number,
    Kind::Prose,
    Kind::Comment,
    Kind::Blank,
    Kind::Bad,
];

pub fn kind_number(kind: Kind) -> u8 {
    match kind {
        Kind::Name => 0,
        Kind::Defines => 1,
        Kind::Adds => 2,
        Kind::Slash => 3,
        Kind::Repeat => 4,
        Kind::ParenL => 5,
        Kind::ParenR => 6,
        Kind::BracketL => 7,
        Kind::BracketR => 8,
        Kind::Quoted => 9,
        Kind::Number => 10,
        Kind::Prose => 11,
        Kind::Comment => 12,
        Kind::Blank => 13,
        Kind::Bad => 14,
    }
}

pub fn token<'t>(kind: Kind, text: &'t str, line: usize, start: usize) -> Token<'t>
    requires { start + length text.now < 2 ^ 64 }
{
    Token {
        kind,
        text,
        line,
        start,
    }
}

pub fn tokens<'t>(text: &'t str, line: usize) -> TokenIter<'t> {
    abnf_token::tokens(text, line)
}

pub fn next_token<'t>(tokens: &mut TokenIter<'t>) -> Option<Token<'t>> {
    tokens.next()
}

pub fn number_of(digits: &str, base: u32) -> Option<u32> {
    abnf_token::number_of(digits, base)
}

pub fn folded<'t>(name: &'t str) -> Folded<'t> {
    Folded(name)
}

fn is_compared<T: Eq + Ord + Hash>(_: &T) {}

pub fn folded_is_compared(name: Folded<'_>) {
    is_compared(&name)
}

pub fn token_mark(kind: Kind, start: u32, end: u32) -> TokenMark {
    TokenMark { kind, start, end }
}

pub fn marks_of(alloc: Global, text: &str) -> Result<Vec<TokenMark>, Memory>
    requires { length text.now < 2 ^ 32 }
{
    abnf_token::marks_of(alloc, text)
}

pub fn token_at<'t>(text: &'t str, line: usize, mark: &TokenMark) -> Token<'t>
    requires { IsMarkOf text.now mark.now }
{
    abnf_token::token_at(text, line, mark)
}
