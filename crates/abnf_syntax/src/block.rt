//! The blocks of a text.

ghost use Rattle.std.specs.Prelude.{◌≡◌, ◌<◌, ◌≤◌, All, IfOk, OnOk, OnErr, Some, true, length, map};
ghost use Rattle.abnf_token.specs.Marks.{AreMarks};
ghost use Rattle.abnf_syntax.specs.Blocks.{line_texts, begins_at, AreBlocks, AreBlocksUpTo, HasBlock, IsSeam};
ghost use Rattle.abnf_syntax.specs.Items.{AreItems};
ghost use Rattle.abnf_syntax.specs.Bounds.{bounds};
ghost use Rattle.abnf_syntax.specs.own.Gather as spec;

use crate::item::Item;
use crate::kinds::{is_adds, is_defined_as, is_item, is_name};
use crate::sheet::Sheet;
use abnf_token::{Token, TokenMark, token_at};
use ls_lists::List;
use ls_text::Snapshot;
use std::alloc::{AllocError, Global};

/// A block: the lines of one rule.
#[derive(Drop)]
pub struct Block<'t> {
    /// Its first line, from 0.
    pub first: usize,
    /// The line after its last line.
    pub end: usize,
    /// Its tokens that are no blanks and no comments, line by line and from left to right.
    pub items: List<Item<'t>>,
}

/// The head of a block: the name that it defines, or that it adds to.
#[derive(Clone, Copy, Debug)]
pub struct Head<'t> {
    /// The name as it is written there, which is the block's first item.
    pub name: Token<'t>,
    /// Whether `=/` follows the name; else `=` does.
    pub adds: bool,
}

impl<'t> Head<'t> {
    ghost use Rattle.abnf_syntax.specs.own.Ends.{head_with};

    /// The head of a block that begins with these two items.
    pub(crate) fn of(first: Token<'t>, second: Token<'t>) -> Option<Head<'t>>
        ensures { result ≡ head_with first.entry second.entry }
    {
        if is_name(first.kind) && is_defined_as(second.kind) {
            Some(Head {
                name: first,
                adds: is_adds(second.kind),
            })
        } else {
            None
        }
    }
}

impl<'t> Block<'t> {
    ghost use Rattle.abnf_syntax.specs.Blocks.{IsBlock};
    ghost use Rattle.abnf_syntax.specs.Heads.{head_of};

    /// The block of these lines, in time by their tokens. Its items come into the room of a list, whose own items are let
    /// go.
    ///
    /// # Errors
    ///
    /// Where an allocation is refused.
    pub fn of(
        room: List<Item<'t>>,
        sheet: &Sheet<'t>,
        first: usize,
        end: usize,
    ) -> Result<Block<'t>, AllocError>
        requires { IsBlock sheet.now first end }
        ensures lines { IfOk result (λ block. (block.first ≡ first) × (block.end ≡ end)) }
        ensures items { IfOk result (λ block. AreItems sheet.now first end block.items) }
        ensures some { IfOk result (λ block. 0 < length block.items) }
    {
        let items = items_of(room, sheet, first, end)?;
        Ok(Block { first, end, items })
    }

    /// The head: its first item, where that is a name and `=` or `=/` follows; else `None`. A faulty block may have one
    /// too.
    pub fn head(&self) -> Option<Head<'t>>
        ensures { result ≡ head_of self.now.items }
    {
        match self.items.as_slice() {
            [first, second, ..] => Head::of(first.token, second.token),
            _ => None,
        }
    }
}

/// The items of a block so far.
#[derive(Drop)]
pub struct Gathered<'t> {
    pub items: Vec<Item<'t>>,
    /// Whether something stands between the last item and the next one.
    pub apart: bool,
}

impl<'t> Gathered<'t> {
    ghost use Rattle.abnf_syntax.specs.own.Gather as spec;

    /// A blank, a comment or a line end comes.
    fn add_gap(&mut self)
        ensures { spec.gathering_of self.new ≡ spec.with_gap (spec.gathering_of self.old) }
    {
        self.apart = !self.items.is_empty();
    }

    /// A token comes.
    fn add_token(&mut self, token: Token<'t>) -> Result<(), AllocError>
        ensures { OnOk result (spec.gathering_of self.new ≡ spec.gathered_on (spec.gathering_of self.old) (Some token.entry)) }
    {
        if is_item(token.kind) {
            self.items.push(Item {
                token,
                apart: self.apart,
            })?;
            self.apart = false;
        } else {
            self.add_gap();
        }
        Ok(())
    }

    /// Makes room for the items among these marks, so that a block of one line takes memory once, and no more than it needs. Where there
    /// is room for as many as there are marks they aren't counted.
    fn make_room(&mut self, marks: &[TokenMark]) -> Result<(), AllocError>
        ensures { OnOk result (spec.gathering_of self.new ≡ spec.gathering_of self.old) }
    {
        if self.items.capacity() - self.items.len() >= marks.len() {
            return Ok(());
        }
        let count = marks.iter().filter(|mark| is_item(mark.kind)).count();
        self.items.reserve(count)
    }

    /// The tokens of a line come, which have these marks, and its end.
    fn add_line(&mut self, line: &'t str, at: usize, marks: &[TokenMark]) -> Result<(), AllocError>
        requires { AreMarks line.now marks.now }
        ensures { OnOk result (spec.AddsLine at line.entry.now (spec.gathering_of self.old) (spec.gathering_of self.new)) }
    {
        self.make_room(marks)?;
        for mark in marks {
            self.add_token(token_at(line, at, mark))?;
        }
        self.add_gap();
        Ok(())
    }
}

/// The items of these lines, in the room of a list.
fn items_of<'t>(
    room: List<Item<'t>>,
    sheet: &Sheet<'t>,
    first: usize,
    end: usize,
) -> Result<List<Item<'t>>, AllocError>
    requires some { first < end }
    requires begins { begins_at sheet.now first ≡ true }
    ensures items { IfOk result (λ items. AreItems sheet.now first end items) }
    ensures some { IfOk result (λ items. 0 < length items) }
{
    let mut items = room.into_vec();
    items.clear();
    let mut gathered = Gathered {
        items,
        apart: false,
    };
    for at in first..end {
        let row = sheet.row(at);
        gathered.add_line(row.text, at, row.marks)?;
    }
    Ok(List::from_vec(gathered.items))
}

/// The blocks of the lines from one place of a text up to another, where no block goes over either place, in time by the
/// bytes of these lines.
///
/// # Errors
///
/// Where an allocation is refused. A text without blocks needs no memory.
pub fn blocks_between<'t>(
    alloc: Global,
    sheet: &Sheet<'t>,
    from: usize,
    to: usize,
) -> Result<Vec<Block<'t>>, AllocError>
    requires order { from ≤ to }
    requires seams { IsSeam sheet.now from × IsSeam sheet.now to }
    ensures all { IfOk result (λ found. AreBlocksUpTo sheet.now from to (map bounds found.items)) }
    ensures items { IfOk result (λ found. All (λ b. AreItems sheet.now b.first b.end b.items) found.items) }
    ensures some { IfOk result (λ found. All (λ b. 0 < length b.items) found.items) }

    // A text without blocks needs no memory.
    ensures memory { OnErr result (HasBlock sheet.now) }
{
    let mut found = Vec::new(alloc);
    let mut first = sheet.next_block(from, to);
    'blocks: while first < to {
        let end = sheet.next_block(first + 1, to);
        let items = items_of(List::new(alloc), sheet, first, end)?;
        found.push(Block { first, end, items })?;
        first = end;
    }
    Ok(found)
}

/// The blocks of a text.
///
/// A line that isn't blank and has no comment alone begins a block, if it is indented no deeper than the first such line.
/// All lines up to the next one belong to it. Lines before the first block belong to none. A block has at least one item.
/// This is the left alignment of rules of RFC 5234 section 2.2. An indent counts SP and HTAB alike. Time goes by the
/// bytes of the text.
///
/// # Errors
///
/// Where an allocation is refused. A text without blocks needs no memory.
pub fn blocks<'t>(alloc: Global, snapshot: &'t Snapshot) -> Result<Vec<Block<'t>>, AllocError>
    ensures all { IfOk result (λ found.
        AreBlocks (line_texts snapshot.entry.now) 0 (map bounds found.items)) }
    ensures items { IfOk result (λ found.
        All (λ b. AreItems (line_texts snapshot.entry.now) b.first b.end b.items) found.items) }
    ensures some { IfOk result (λ found. All (λ b. 0 < length b.items) found.items) }

    // A text without blocks needs no memory.
    ensures memory { OnErr result (HasBlock (line_texts snapshot.entry.now)) }
{
    let sheet = Sheet::of(snapshot);
    blocks_between(alloc, &sheet, 0, sheet.count())
}
