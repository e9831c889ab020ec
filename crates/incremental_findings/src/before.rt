//! A text before, whose blocks are kept, and what of them another text has too.

ghost use Rattle.std.specs.Prelude.{◌≡◌, ◌≤◌, ◌<◌, ◌⊎◌, IfSome, IsSomeAnd, length};
ghost use Rattle.abnf_syntax.specs.Blocks.{IsNextBlock};
ghost use Rattle.incremental_findings.specs.own.Reads as spec;

use crate::alike::{Lines, among};
use crate::difference::Difference;
use abnf_syntax::Sheet;
use findings_index::BlockDigest;

/// So many blocks before and behind a place are compared with one that may be the block there.
const REACH: usize = 2;

/// The text before: the lines whose blocks are kept, most of which may stand in the next one too, and how many names there may be then.
#[derive(Clone, Copy)]
pub struct Before<'k, 's> {
    pub sheet: &'k Sheet<'s>,
    /// The lines that differ in the next one.
    pub lines: Difference,
    /// How many blocks are kept of it: the first ones.
    pub count: usize,
    /// The places of the blocks that may come again: from one up to another.
    pub from: usize,
    pub to: usize,
    pub most_names: usize,
}

impl<'k, 's> Before<'k, 's> {
    /// Which of the blocks that are kept says what these lines say, and has no findings of its own: one of a few about a place.
    fn like(
        &self,
        blocks: &[BlockDigest],
        about: usize,
        sheet: &Sheet,
        first: usize,
        end: usize,
    ) -> Option<usize>
        requires before { spec.IsBefore sheet.now self.now }
        requires order { first ≤ end }
        ensures { IfSome result (spec.IsBlockLike self.now.sheet.now self.now.to blocks.now sheet.now first end) }
    {
        let to = self.to.min(blocks.len()).min(about.saturating_add(REACH));
        for at in about.saturating_sub(REACH)..to {
            let block = blocks[at];
            if !block.has_own
                && block.first <= block.behind
                && self.lines.say_the_same(
                    self.sheet,
                    Lines {
                        from: block.first as usize,
                        to: block.behind as usize,
                    },
                    sheet,
                    Lines {
                        from: first,
                        to: end,
                    },
                )
            {
                return Some(at);
            }
        }
        None
    }

    /// The next line of this text from a place on that begins a block, or the line `to` where none before it does, as its blocks tell.
    fn next_here(&self, blocks: &[BlockDigest], from: usize, to: usize) -> usize
        requires blocks { spec.HasDigests self.now.sheet.now self.now.count blocks.now }
        requires order { from ≤ to }
        requires within { (to ≤ length self.now.sheet.now) ⊎ (from ≡ to) }
        ensures { IsNextBlock self.now.sheet.now from to result }
    {
        let blocks = &blocks[..self.count];
        let place = blocks.partition_point(|block| (block.first as usize) < from);
        match blocks.get(place) {
            Some(block) => (block.first as usize).min(to),
            None => to,
        }
    }

    /// The same of the other text, from a place behind the lines that differ.
    fn next_behind(&self, blocks: &[BlockDigest], sheet: &Sheet, from: usize, to: usize) -> usize
        requires before { spec.IsBefore sheet.now self.now }
        requires blocks { spec.HasDigests self.now.sheet.now self.now.count blocks.now }
        requires order { (self.now.lines.new ≤ from) × (from ≤ to) }
        requires within { to ≤ length sheet.now }
        ensures { IsNextBlock sheet.now from to result }
    {
        let (count, others) = (self.sheet.count(), sheet.count());
        let next = self.next_here(blocks, count - (others - from), count - (others - to));
        others - (count - next)
    }

    /// The next line of the other text from a place on that begins a block, or the line `to` where none before it does. Only the lines that
    /// differ are looked at.
    fn next_block(&self, blocks: &[BlockDigest], sheet: &Sheet, from: usize, to: usize) -> usize
        requires before { spec.IsBefore sheet.now self.now }
        requires blocks { spec.HasDigests self.now.sheet.now self.now.count blocks.now }
        requires order { from ≤ to }
        requires within { to ≤ length sheet.now }
        ensures { IsNextBlock sheet.now from to result }
    {
        let (front, back) = among(from, to, self.lines.front, self.lines.new);
        let next = self.next_here(blocks, from, front);
        if next < front {
            return next;
        }
        let next = sheet.next_block(front, back);
        if next < back || back == to {
            return next;
        }
        self.next_behind(blocks, sheet, back, to)
    }
}

/// Which block of the text before says what these lines say, if there is such a text.
pub fn like(
    before: &Option<Before>,
    blocks: &[BlockDigest],
    about: usize,
    sheet: &Sheet,
    first: usize,
    end: usize,
) -> Option<usize>
    requires before { IfSome before.now (λ b. spec.IsBefore sheet.now b) }
    requires order { first ≤ end }
    ensures { IfSome result (λ at. IsSomeAnd before.now (λ b. spec.IsBlockLike b.sheet.now b.to blocks.now sheet.now first end at)) }
{
    match before {
        Some(before) => before.like(blocks, about, sheet, first, end),
        None => None,
    }
}

/// The next line from a place on that begins a block, or the line `to` where none before it does. Where there is a text before, only lines that
/// it hasn't are looked at.
pub fn next_block(
    before: &Option<Before>,
    blocks: &[BlockDigest],
    sheet: &Sheet,
    from: usize,
    to: usize,
) -> usize
    requires before { IfSome before.now (λ b. spec.IsBefore sheet.now b × spec.HasDigests b.sheet.now b.count blocks.now) }
    requires order { from ≤ to }
    requires within { to ≤ length sheet.now }
    ensures { IsNextBlock sheet.now from to result }
{
    match before {
        Some(before) => before.next_block(blocks, sheet, from, to),
        None => sheet.next_block(from, to),
    }
}
