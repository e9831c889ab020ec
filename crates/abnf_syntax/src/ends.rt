//! What an outline shows of blocks, by the marks of their lines.

ghost use Rattle.std.specs.Prelude.{◌≡◌, ◌≤◌, ◌++◌, ◌∷◌, [], List, None, option_map, take};
ghost use Rattle.std.specs.List.{last_or};
ghost use Rattle.abnf_token.specs.Marks.{AreMarks};
ghost use Rattle.abnf_token.specs.Tokens.{view};
ghost use Rattle.abnf_syntax.specs.Blocks.{IsBlock};
ghost use Rattle.abnf_syntax.specs.Heads.{headed_items, headed_view};
ghost use Rattle.abnf_syntax.specs.Items.{AreItems};
ghost use Rattle.abnf_syntax.specs.declared.item.Item.{Item};
ghost use Rattle.abnf_syntax.specs.own.Ends as spec;

use crate::block::Head;
use crate::kinds::is_item;
use crate::sheet::{Row, Sheet};
use abnf_token::{Token, token_at};

/// A block with a head, as an outline shows it.
#[derive(Clone, Copy, Debug)]
pub struct Headed<'t> {
    /// The head, whose name is the block's first item.
    pub head: Head<'t>,
    /// The block's last item.
    pub last: Token<'t>,
}

/// The first items of lines, at most two.
#[derive(Clone, Copy)]
enum FirstItems<'t> {
    Nothing,
    One(Token<'t>),
    Two(Token<'t>, Token<'t>),
}

impl<'t> FirstItems<'t> {
    /// The next item comes.
    fn with(self, item: Token<'t>) -> FirstItems<'t>
        ensures { spec.front_views result ≡ take 2 (spec.front_views self.entry ++ view item.entry ∷ []) }
    {
        match self {
            FirstItems::Nothing => FirstItems::One(item),
            FirstItems::One(first) => FirstItems::Two(first, item),
            FirstItems::Two(..) => self,
        }
    }

    /// Whether more items change nothing.
    fn is_full(self) -> bool
        ensures { result ≡ spec.is_full self.entry }
    {
        match self {
            FirstItems::Two(..) => true,
            _ => false,
        }
    }

    /// The items of a line come.
    fn after_line(self, row: Row<'t>, at: usize) -> FirstItems<'t>
        requires { AreMarks row.text.now row.marks.now }
        ensures { spec.front_views result ≡ take 2 (spec.front_views self.entry ++ spec.items_at at row.entry.text.now row.entry.marks.now) }
    {
        let mut front = self;
        for mark in row.marks {
            if front.is_full() {
                return front;
            }
            if is_item(mark.kind) {
                front = front.with(token_at(row.text, at, mark));
            }
        }
        front
    }

    /// The head that a block with these first items has.
    fn head(self) -> Option<Head<'t>>
        ensures { option_map spec.head_view result ≡ spec.head_seen (spec.front_views self.entry) }
    {
        match self {
            FirstItems::Two(first, second) => Head::of(first, second),
            _ => None,
        }
    }
}

/// The first items of these lines.
fn front_of<'t>(sheet: &Sheet<'t>, first: usize, end: usize) -> FirstItems<'t>
    ensures { (seen : List spec.View) → spec.AreSeen sheet.now first end seen → spec.front_views result ≡ take 2 seen }
{
    let mut front = FirstItems::Nothing;
    for at in first..end {
        if front.is_full() {
            return front;
        }
        front = front.after_line(sheet.row(at), at);
    }
    front
}

/// The last item of a line.
fn last_in<'t>(row: Row<'t>, at: usize) -> Option<Token<'t>>
    requires { AreMarks row.text.now row.marks.now }
    ensures { option_map view result ≡ last_or None (spec.items_at at row.entry.text.now row.entry.marks.now) }
{
    for index in (0..row.marks.len()).rev() {
        let mark = &row.marks[index];
        if is_item(mark.kind) {
            return Some(token_at(row.text, at, mark));
        }
    }
    None
}

/// The last item of these lines.
fn last_of<'t>(sheet: &Sheet<'t>, first: usize, end: usize) -> Option<Token<'t>>
    requires { first ≤ end }
    ensures { (seen : List spec.View) → spec.AreSeen sheet.now first end seen → option_map view result ≡ last_or None seen }
{
    for at in (first..end).rev() {
        let last = last_in(sheet.row(at), at);
        if last.is_some() {
            return last;
        }
    }
    None
}

impl<'t> Headed<'t> {
    /// The head of the block of these lines and its last item, by the marks of its lines; `None` where it has no head.
    ///
    /// No list of items is made, so it takes no memory. Only the marks up to the second item, and from the last one on,
    /// are looked at.
    pub fn of(sheet: &Sheet<'t>, first: usize, end: usize) -> Option<Headed<'t>>
        requires { IsBlock sheet.now first end }
        ensures { (items : List Item) → AreItems sheet.now first end items
            → option_map headed_view result ≡ option_map headed_view (headed_items items) }
    {
        let head = front_of(sheet, first, end).head()?;
        let last = last_of(sheet, first, end)?;
        Some(Headed { head, last })
    }
}
