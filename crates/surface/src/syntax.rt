//! `abnf_syntax`: the blocks of a text, and their parse.
ghost use Rattle.std.specs.Prelude.{◌≡◌, ◌<◌, length, true};
ghost use Rattle.abnf_syntax.specs.Kinds.{is_item};

use abnf_syntax::{
    Alternation, Block, Concatenation, Element, Item, Repetition, Rule, SyntaxFault,
};
use abnf_token::Token;
use ls_lists::List;
use ls_text::{Place, Snapshot};
use std::alloc::{AllocError as Memory, Global};

pub fn blocks<'t>(alloc: Global, snapshot: &'t Snapshot) -> Result<Vec<Block<'t>>, Memory> {
    abnf_syntax::blocks(alloc, snapshot)
}

pub fn block<'t>(first: usize, end: usize, items: List<Item<'t>>) -> Block<'t> {
    Block { first, end, items }
}

pub fn item<'t>(token: Token<'t>, apart: bool) -> Item<'t>
    requires { is_item token.kind ≡ true }
{
    Item { token, apart }
}

pub fn parse_block<'t>(alloc: Global, block: &Block<'t>) -> Result<Rule<'t>, SyntaxFault>
    requires { 0 < length block.now.items }
{
    abnf_syntax::parse_block(alloc, block)
}

pub fn rule<'t>(name: Token<'t>, adds: bool, body: Alternation<'t>) -> Rule<'t> {
    Rule { name, adds, body }
}

pub fn alternation<'t>(concatenations: List<Concatenation<'t>>) -> Alternation<'t> {
    concatenations
}

pub fn concatenation<'t>(repetitions: List<Repetition<'t>>) -> Concatenation<'t> {
    repetitions
}

pub fn repetition<'t>(repeat: Option<Token<'t>>, element: Element<'t>) -> Repetition<'t> {
    Repetition { repeat, element }
}

pub fn element_name<'t>(token: Token<'t>) -> Element<'t> {
    Element::Name(token)
}

pub fn element_quoted<'t>(token: Token<'t>) -> Element<'t> {
    Element::Quoted(token)
}

pub fn element_number<'t>(token: Token<'t>) -> Element<'t> {
    Element::Number(token)
}

pub fn element_prose<'t>(token: Token<'t>) -> Element<'t> {
    Element::Prose(token)
}

pub fn element_group<'t>(body: Alternation<'t>) -> Element<'t> {
    Element::Group(body)
}

pub fn element_choice<'t>(body: Alternation<'t>) -> Element<'t> {
    Element::Choice(body)
}

pub fn element_kind(element: &Element<'_>) -> u8 {
    match element {
        Element::Name(_) => 0,
        Element::Quoted(_) => 1,
        Element::Number(_) => 2,
        Element::Prose(_) => 3,
        Element::Group(_) => 4,
        Element::Choice(_) => 5,
    }
}

pub fn syntax_faults(place: Place) -> [SyntaxFault; 9] {
    [
        SyntaxFault::NoName(place),
        SyntaxFault::NoDefinedAs(place),
        SyntaxFault::BadToken(place),
        SyntaxFault::ElementExpected(place),
        SyntaxFault::BlankExpected(place),
        SyntaxFault::Unclosed(place),
        SyntaxFault::NumberTooLarge(place),
        SyntaxFault::TooDeep(place),
        SyntaxFault::Memory,
    ]
}

pub fn syntax_fault_number(fault: SyntaxFault) -> u8 {
    match fault {
        SyntaxFault::NoName(_) => 1,
        SyntaxFault::NoDefinedAs(_) => 2,
        SyntaxFault::BadToken(_) => 3,
        SyntaxFault::ElementExpected(_) => 4,
        SyntaxFault::BlankExpected(_) => 5,
        SyntaxFault::Unclosed(_) => 6,
        SyntaxFault::NumberTooLarge(_) => 7,
        SyntaxFault::TooDeep(_) => 8,
        SyntaxFault::Memory => 9,
    }
}
