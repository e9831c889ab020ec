//! What a block says.

use abnf_token::Token;
use ls_lists::List;

/// An element of a rule (`element`; RFC 5234 section 4).
#[cycle(syntax)]
#[derive(Drop)]
pub enum Element<'t> {
    /// The name of a rule.
    Name(Token<'t>),
    /// A string (`char-val`; RFC 7405 section 2.2).
    Quoted(Token<'t>),
    /// A number, a series of numbers or a range (`num-val`).
    Number(Token<'t>),
    /// A description in words (`prose-val`).
    Prose(Token<'t>),
    /// An alternation in parentheses (`group`).
    Group(List<List<Repetition<'t>>>),
    /// An alternation in brackets, which may be left out (`option`).
    Choice(List<List<Repetition<'t>>>),
}

/// An element, with a repeat before it or none (`repetition`; RFC 5234 section 4).
#[cycle(syntax)]
#[derive(Drop)]
pub struct Repetition<'t> {
    /// How often the element stands; once where it is `None` (`repeat`).
    pub repeat: Option<Token<'t>>,
    /// What is repeated.
    pub element: Element<'t>,
}

/// Repetitions that follow one another (`concatenation`; RFC 5234 section 4).
pub type Concatenation<'t> = List<Repetition<'t>>;

/// Concatenations to choose from (`alternation`; RFC 5234 section 4).
pub type Alternation<'t> = List<Concatenation<'t>>;

/// A rule (`rule`; RFC 5234 section 4).
#[derive(Drop)]
pub struct Rule<'t> {
    /// The name that the rule defines, or adds to.
    pub name: Token<'t>,
    /// Whether it adds alternatives to a rule: `=/` and not `=` (RFC 5234 section 3.3).
    pub adds: bool,
    /// Its alternatives.
    pub body: Alternation<'t>,
}
