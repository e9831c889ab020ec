//! What a kind of item may do.

ghost use Rattle.std.specs.Prelude.{◌≡◌};
ghost use Rattle.abnf_syntax.specs.Kinds as kinds;

use abnf_token::Kind;

/// Whether a token of this kind is an item of a block: no blank and no comment.
pub fn is_item(kind: Kind) -> bool
    ensures { result ≡ kinds.is_item kind }
{
    match kind {
        Kind::Comment | Kind::Blank => false,
        _ => true,
    }
}

/// Whether a token of this kind is a character that begins none.
pub(crate) fn is_bad(kind: Kind) -> bool
    ensures { result ≡ kinds.is_bad kind }
{
    match kind {
        Kind::Bad => true,
        _ => false,
    }
}

/// Whether it is a repeat.
pub(crate) fn is_repeat(kind: Kind) -> bool
    ensures { result ≡ kinds.is_repeat_kind kind }
{
    match kind {
        Kind::Repeat => true,
        _ => false,
    }
}

/// Whether it is `=` or `=/`.
pub(crate) fn is_defined_as(kind: Kind) -> bool
    ensures { result ≡ kinds.is_defined_as kind }
{
    match kind {
        Kind::Defines | Kind::Adds => true,
        _ => false,
    }
}

/// Whether it is `(` or `[`.
pub(crate) fn opens(kind: Kind) -> bool
    ensures { result ≡ kinds.opens kind }
{
    match kind {
        Kind::ParenL | Kind::BracketL => true,
        _ => false,
    }
}

/// Whether it is `)` or `]`.
pub(crate) fn closes(kind: Kind) -> bool
    ensures { result ≡ kinds.closes kind }
{
    match kind {
        Kind::ParenR | Kind::BracketR => true,
        _ => false,
    }
}

/// Whether the second bracket closes the first.
pub(crate) fn closes_it(left: Kind, right: Kind) -> bool
    ensures { result ≡ kinds.closes_it left right }
{
    match left {
        Kind::ParenL => match right {
            Kind::ParenR => true,
            _ => false,
        },
        Kind::BracketL => match right {
            Kind::BracketR => true,
            _ => false,
        },
        _ => false,
    }
}

/// Whether an element can begin with it.
pub(crate) fn begins_element(kind: Kind) -> bool
    ensures { result ≡ kinds.begins_element kind }
{
    match kind {
        Kind::Name | Kind::Quoted | Kind::Number | Kind::Prose | Kind::ParenL | Kind::BracketL =>
            true,
        _ => false,
    }
}

/// Whether an element must come behind it.
pub(crate) fn needs_element(kind: Kind) -> bool
    ensures { result ≡ kinds.needs_element kind }
{
    match kind {
        Kind::Defines | Kind::Adds | Kind::Slash | Kind::ParenL | Kind::BracketL => true,
        _ => false,
    }
}

/// Whether an element ends at it.
pub(crate) fn ends_element(kind: Kind) -> bool
    ensures { result ≡ kinds.ends_element kind }
{
    match kind {
        Kind::Name | Kind::Quoted | Kind::Number | Kind::Prose | Kind::ParenR | Kind::BracketR =>
            true,
        _ => false,
    }
}

/// Whether it is a name.
pub(crate) fn is_name(kind: Kind) -> bool
    ensures { result ≡ kinds.is_name_kind kind }
{
    match kind {
        Kind::Name => true,
        _ => false,
    }
}

/// Whether it is `=/`.
pub(crate) fn is_adds(kind: Kind) -> bool
    ensures { result ≡ kinds.is_adds kind }
{
    match kind {
        Kind::Adds => true,
        _ => false,
    }
}
