//! The parser: a stack of the brackets that are open, which takes one item after another.

ghost use Rattle.std.specs.Prelude.{◌≡◌, ◌∷◌, [], reverse, Some, IfOk, IsOk, OnOk, Ok};
ghost use Rattle.abnf_syntax.specs.Machine as spec;

use crate::item::Item;
use crate::spare::Spare;
use crate::tree::{Alternation, Concatenation, Element, Repetition};
use abnf_token::{Kind, Token};
use ls_lists::List;
use std::alloc::{AllocError, Global};
use std::mem;

/// What stands between two brackets so far: the concatenations that a slash ended, the repetitions
/// since, and a repeat that waits for its element.
#[derive(Drop)]
pub struct Level<'t> {
    pub done: Alternation<'t>,
    pub row: Concatenation<'t>,
    pub repeat: Option<Token<'t>>,
}

/// An opening bracket, and what stands before it.
#[derive(Drop)]
pub struct Opened<'t> {
    pub bracket: Token<'t>,
    pub level: Level<'t>,
}

/// What was read so far: the open brackets, the innermost last, what stands behind the innermost, and the last item.
#[derive(Drop)]
pub struct Parser<'t> {
    pub outer: List<Opened<'t>>,
    pub level: Level<'t>,
    pub last: Item<'t>,
}

/// The element of an opening bracket.
fn bracketed<'t>(bracket: &Token<'t>, body: Alternation<'t>) -> Element<'t>
    ensures { result ≡ spec.bracketed bracket.now body.entry }
{
    match bracket.kind {
        Kind::ParenL => Element::Group(body),
        _ => Element::Choice(body),
    }
}

impl<'t> Level<'t> {
    ghost use Rattle.abnf_syntax.specs.Machine as spec;

    /// Nothing yet.
    fn new(spare: &mut Spare<'t>) -> Level<'t>
        ensures { result ≡ spec.empty }
    {
        Level {
            done: spare.take_alternation(),
            row: spare.take_concatenation(),
            repeat: None,
        }
    }

    /// Adds an element, with the repeat that waits for it.
    fn put(&mut self, element: Element<'t>) -> Result<(), AllocError>
        ensures { OnOk result (self.new ≡ spec.put self.old element.entry) }
    {
        let repeat = self.repeat.take();
        self.row.push(Repetition { repeat, element })
    }

    /// A repeat waits for its element.
    fn count(&mut self, repeat: Token<'t>)
        ensures { self.new ≡ spec.with_repeat self.old repeat.entry }
    {
        self.repeat = Some(repeat);
    }

    /// A slash ends the concatenation. The first that one ends gets room for the next beside it, since one follows.
    fn bar(&mut self, spare: &mut Spare<'t>) -> Result<(), AllocError>
        ensures { OnOk result (self.new ≡ spec.barred self.old) }
    {
        let row = mem::replace(&mut self.row, spare.take_concatenation());
        self.repeat = None;
        if self.done.is_empty() {
            self.done.reserve(2)?;
        }
        self.done.push(row)
    }

    /// The alternation that ends here.
    fn finish(self) -> Result<Alternation<'t>, AllocError>
        ensures { IfOk result (λ a. a ≡ spec.finish self.entry) }
    {
        let Level {
            mut done,
            row,
            repeat: _,
        } = self;
        done.push(row)?;
        Ok(done)
    }
}

impl<'t> Parser<'t> {
    ghost use Rattle.abnf_syntax.specs.Machine as spec;

    /// The parser behind `=` or `=/`.
    fn new(alloc: Global, spare: &mut Spare<'t>, defined: Item<'t>) -> Parser<'t>
        ensures { spec.parser_state result ≡ spec.start defined.entry }
    {
        Parser {
            outer: List::new(alloc),
            level: Level::new(spare),
            last: defined,
        }
    }

    /// A bracket opens.
    fn open_bracket(&mut self, spare: &mut Spare<'t>, bracket: Token<'t>) -> Result<(), AllocError>
        ensures { OnOk result (spec.parser_state self.new ≡ record {
          outer = record { bracket = bracket.entry; level = self.old.level } ∷ reverse self.old.outer;
          level = spec.empty;
          last = self.old.last;
        }) }
    {
        let level = mem::replace(&mut self.level, Level::new(spare));
        self.outer.push(Opened { bracket, level })
    }

    /// The innermost bracket closes, if one is open.
    fn close_bracket(&mut self) -> Result<(), AllocError>
        ensures { OnOk result (spec.parser_state self.new ≡ spec.close_in (reverse self.old.outer) self.old.level self.old.last) }
    {
        let Some(opened) = self.outer.pop() else {
            return Ok(());
        };
        let inner = mem::replace(&mut self.level, opened.level);
        self.level.put(bracketed(&opened.bracket, inner.finish()?))
    }

    /// Takes the next item, which shows no fault.
    #[tactic(auto, unfolding(crate::specs::Machine::shift))]
    fn shift(&mut self, spare: &mut Spare<'t>, item: &Item<'t>) -> Result<(), AllocError>
        ensures { OnOk result (spec.parser_state self.new ≡ spec.shift (spec.parser_state self.old) item.now) }
    {
        let token = item.token;
        self.last = *item;
        match token.kind {
            Kind::Name => self.level.put(Element::Name(token)),
            Kind::Quoted => self.level.put(Element::Quoted(token)),
            Kind::Number => self.level.put(Element::Number(token)),
            Kind::Prose => self.level.put(Element::Prose(token)),
            Kind::ParenL | Kind::BracketL => self.open_bracket(spare, token),
            Kind::ParenR | Kind::BracketR => self.close_bracket(),
            Kind::Slash => self.level.bar(spare),
            Kind::Repeat => {
                self.level.count(token);
                Ok(())
            }
            Kind::Defines | Kind::Adds | Kind::Comment | Kind::Blank | Kind::Bad => Ok(()),
        }
    }
}

/// The alternation behind `=` or `=/`, up to the end of the block, where none of these items and not their end shows a fault.
pub(crate) fn sound_body_of<'t>(
    alloc: Global,
    spare: &mut Spare<'t>,
    defined: Item<'t>,
    items: &[Item<'t>],
) -> Result<Alternation<'t>, AllocError>
    requires { IsOk (spec.run (spec.start defined) items.now) }
    ensures { IfOk result (λ a. spec.run (spec.start defined.entry) items.now ≡ Ok a) }
{
    let mut parser = Parser::new(alloc, spare, defined);
    for item in items {
        parser.shift(spare, item)?;
    }
    parser.level.finish()
}
