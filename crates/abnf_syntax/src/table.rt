//! The table of faults: what the next item, or the end, shows behind the items so far.

ghost use Rattle.std.specs.Prelude.{◌≡◌, List, [], ◌∷◌, length};
ghost use Rattle.abnf_token.specs.declared.token.Token.{Token};
ghost use Rattle.abnf_syntax.specs.Faults.{place_of, place_after, first_of, is_followed};
ghost use Rattle.abnf_syntax.specs.own.Check.{fault_behind, shows_none};

use crate::fault::SyntaxFault;
use crate::item::Item;
use crate::kinds::{
    begins_element, closes, closes_it, ends_element, is_bad, is_defined_as, is_repeat,
    needs_element, opens,
};
use crate::number::numbers_fit;
use abnf_token::{Kind, Token};
use ls_text::Place;

/// How deep groups and options may nest.
pub const MAX_NESTING: usize = 64;

/// What the table looks at: the innermost bracket that is open, how many are open, and the last item.
#[derive(Clone, Copy)]
pub(crate) struct ParseContext<'t> {
    pub inner: Option<Token<'t>>,
    pub depth: usize,
    pub last: Item<'t>,
}

/// The place of a token: its line, and the bytes of its text there.
pub fn place_of<'t>(token: Token<'t>) -> Place
    ensures { result ≡ place_of token.entry }
{
    Place {
        line: token.line,
        start: token.start,
        end: token.start + token.text.len(),
    }
}

/// The empty place behind a token.
pub(crate) fn place_after<'t>(token: Token<'t>) -> Place
    ensures { result ≡ place_after token.entry }
{
    let end = token.start + token.text.len();
    Place {
        line: token.line,
        start: end,
        end,
    }
}

/// Whether an element follows at once.
fn is_followed(rest: &[Item<'_>]) -> bool
    ensures { result ≡ is_followed rest.now }
{
    match rest.first() {
        None => false,
        Some(next) => begins_element(next.token.kind) && !next.apart,
    }
}

/// Whether an item shows no fault behind another one by their kinds alone, as most do.
pub(crate) fn shows_none(last: Kind, kind: Kind) -> bool
    ensures { result ≡ shows_none last kind }
{
    match kind {
        Kind::Name | Kind::Quoted | Kind::Prose => needs_element(last),
        Kind::Slash => ends_element(last),
        _ => false,
    }
}

impl<'t> ParseContext<'t> {
    /// The fault that the end shows.
    #[tactic(auto, unfolding(crate::specs::own::Check::fault_behind))]
    pub(crate) fn end_fault(&self) -> Option<SyntaxFault>
        ensures { (brackets : List Token) → self.now.inner ≡ first_of brackets → self.now.depth ≡ length brackets
            → result ≡ fault_behind self.now.last brackets [] }
    {
        let last = self.last.token;
        if needs_element(last.kind) {
            return Some(SyntaxFault::ElementExpected(place_after(last)));
        }
        let bracket = self.inner?;
        if ends_element(last.kind) {
            Some(SyntaxFault::Unclosed(place_of(bracket)))
        } else {
            None
        }
    }

    /// The fault that the next item shows, with what follows it.
    #[tactic(auto, unfolding(crate::specs::own::Check::fault_behind))]
    pub(crate) fn item_fault(&self, item: &Item<'t>, rest: &[Item<'t>]) -> Option<SyntaxFault>
        ensures { (brackets : List Token) → self.now.inner ≡ first_of brackets → self.now.depth ≡ length brackets
            → result ≡ fault_behind self.now.last brackets (item.now ∷ rest.now) }
    {
        let kind = item.token.kind;
        let last = self.last.token.kind;
        let begins = is_repeat(kind) || begins_element(kind);
        if is_bad(kind) {
            return Some(SyntaxFault::BadToken(place_of(item.token)));
        }
        if !begins && needs_element(last) {
            return Some(SyntaxFault::ElementExpected(place_of(item.token)));
        }
        if is_defined_as(kind) && ends_element(last) {
            return Some(SyntaxFault::ElementExpected(place_of(item.token)));
        }
        if closes(kind) && self.inner.is_none() {
            return Some(SyntaxFault::ElementExpected(place_of(item.token)));
        }
        if is_repeat(kind) && !is_followed(rest) {
            return Some(SyntaxFault::ElementExpected(place_of(item.token)));
        }
        if begins && ends_element(last) && !item.apart {
            return Some(SyntaxFault::BlankExpected(place_of(item.token)));
        }
        if let Some(bracket) = self.inner
            && closes(kind)
            && !closes_it(bracket.kind, kind)
            && ends_element(last)
        {
            return Some(SyntaxFault::Unclosed(place_of(bracket)));
        }
        if !numbers_fit(&item.token) {
            return Some(SyntaxFault::NumberTooLarge(place_of(item.token)));
        }
        if opens(kind) && self.depth >= MAX_NESTING {
            return Some(SyntaxFault::TooDeep(place_of(item.token)));
        }
        None
    }
}
