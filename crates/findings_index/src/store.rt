//! The digests of a text's blocks, as they are kept.

ghost use Rattle.std.specs.Prelude.{◌≡◌, ◌+◌, ◌-◌, ◌<◌, ◌≤◌, ◌∷◌, ◌++◌, [], All, Some, Result, IfOk, OnErr, OnOk, drop, is_some, length, map, option_map, slice_get, slice_range, take};
ghost use Rattle.abnf_syntax.specs.declared.fault.SyntaxFault.{SyntaxFault};
ghost use Rattle.abnf_syntax.specs.declared.tree.Rule.{Rule};
ghost use Rattle.abnf_syntax.specs.Bounds.{bounds};
ghost use Rattle.abnf_syntax.specs.Heads.{head_of};
ghost use Rattle.abnf_parts.specs.Names.{folded_text, rule_number};
ghost use Rattle.abnf_names.specs.Said as said;
ghost use Rattle.abnf_names.specs.Rules.{alternatives_said};
ghost use Rattle.abnf_digests.specs.Gists.{gist};
ghost use Rattle.abnf_digests.specs.Digests.{head_digest, no_number};
ghost use Rattle.findings_index.specs.Words.{IsLater};
ghost use Rattle.findings_index.specs.own.Adding.{AddsWords};
ghost use Rattle.findings_index.specs.declared.digest.BlockDigest.{BlockDigest};
ghost use Rattle.findings_index.specs.KeptBlocks.{AddsBlock, CanMove, at_lines, moved_block, replaced_by_last};
ghost use Rattle.findings_index.specs.Stored.{StandsFor};
ghost use Rattle.abnf_names.specs.Sections.{IsSaidBy};
ghost use Rattle.findings_index.specs.Sections.{IsBlockOf};

use crate::alone::has_own_findings;
use crate::digest::{BlockDigest, HeadNumber};
use crate::table::NameTable;
use crate::word::{Word, push_words};
use abnf_names::{Section, rule_of};
use abnf_syntax::{Block, Spare};
use abnf_token::Folded;
use ls_lists::narrow;
use std::alloc::{AllocError, Global};
use std::marker::Model;

/// The head of a block with the number of its name, which is added unless it is there.
fn head_number<'t>(
    names: &mut NameTable,
    block: &Block<'t>,
) -> Result<Option<HeadNumber>, AllocError>
    ensures later { OnOk result (IsLater names.old names.new) }
    ensures head { IfOk result (λ head. StandsFor names.new head (option_map head_digest (head_of block.now.items))) }
{
    match block.head() {
        Some(head) => {
            let name = names.number_of(Folded(head.name.text))?;
            Ok(Some(HeadNumber {
                name: narrow(name)?,
                adds: head.adds,
            }))
        }
        None => Ok(None),
    }
}

/// Pushes the words of what a section's block says.
fn push_said<'t>(
    alloc: Global,
    spare: &mut Spare<'t>,
    names: &mut NameTable,
    section: &Section<'t>,
    words: &mut Vec<Word>,
) -> Result<(), AllocError>
    ensures { OnOk result ((tells : Result Rule SyntaxFault) → IsSaidBy section.now tells
        → AddsWords (map gist (alternatives_said no_number tells)) names.old names.new words.old.items words.new.items) }
{
    match rule_of(alloc, spare, section)? {
        Some(rule) => {
            push_words(names, &rule, words)?;
            spare.keep(rule);
        }
        None => words.push(Word::Opaque)?,
    }
    Ok(())
}

/// The digests of blocks: a table of names, words, and one digest a block. Contracts see all of it as it is kept.
#[derive(Drop)]
pub struct Digests {
    pub(crate) names: NameTable,
    pub(crate) words: Vec<Word>,
    pub(crate) blocks: Vec<BlockDigest>,
}

impl Model for Digests {
    ghost use Rattle.findings_index.specs.Stored.{Stored};

    ghost Value = { Stored };

    ghost view = { λ d. record { table = d.names; words = d.words.items; kept = d.blocks.items } };
}

impl Digests {
    /// Those of no blocks. Where anybody may choose the names that come, the seed should be one that they don't know.
    pub fn new(alloc: Global, seed: u64) -> Digests
        ensures { result ≡ record { table = []; words = []; kept = [] } }
    {
        Digests {
            names: NameTable::new(alloc, seed),
            words: Vec::new(alloc),
            blocks: Vec::new(alloc),
        }
    }

    /// What is kept of each block, in order.
    pub fn blocks(&self) -> &[BlockDigest]
        ensures { result.now ≡ self.now.kept }
    {
        self.blocks.as_slice()
    }

    /// How many names there are, those that no block has any more among them.
    pub fn name_count(&self) -> usize
        ensures { result ≡ length self.now.table }
    {
        self.names.len()
    }

    /// Whether a name is there. Nothing is added.
    ///
    /// # Errors
    ///
    /// Where an allocation is refused. Only a name with capitals needs one.
    pub fn has_name(&self, name: Folded<'_>) -> Result<bool, AllocError>
        ensures { IfOk result (λ is. is ≡ is_some (rule_number self.now.table (folded_text name.entry))) }
    {
        Ok(self.names.find(name)?.is_some())
    }

    /// How many words there are, those that no block has any more among them.
    pub fn word_count(&self) -> usize
        ensures { result ≡ length self.now.words }
    {
        self.words.len()
    }

    /// Keeps the digest of a section's block, behind the others.
    ///
    /// # Errors
    ///
    /// Where an allocation is refused, or a number of a name, of parts, of words or of a line needs more than 32 bits. Then no more is known
    /// of what is kept.
    pub fn push<'t>(
        &mut self,
        alloc: Global,
        spare: &mut Spare<'t>,
        section: &Section<'t>,
    ) -> Result<(), AllocError>
        ensures { OnOk result ((block : said.Block) → IsBlockOf section.now block → AddsBlock (bounds section.now.block) block self.old self.new) }
    {
        let head = head_number(&mut self.names, &section.block)?;
        let start = narrow(self.words.len())?;
        push_said(alloc, spare, &mut self.names, section, &mut self.words)?;
        let end = narrow(self.words.len())?;
        let first = narrow(section.block.first)?;
        let behind = narrow(section.block.end)?;
        self.blocks.push(BlockDigest {
            head,
            start,
            end,
            first,
            behind,
            has_own: has_own_findings(section),
        })?;
        Ok(())
    }

    /// Keeps the digest at a place once more, behind the others: for a block of other lines that says the same.
    ///
    /// # Errors
    ///
    /// Where an allocation is refused, or the number of a line needs more than 32 bits. Then nothing has changed.
    pub fn push_again(&mut self, at: usize, first: usize, behind: usize) -> Result<(), AllocError>
        requires { at < length self.old.kept }
        ensures ok { OnOk result ((block : BlockDigest) → slice_get self.old.kept at ≡ Some block →
            self.new ≡ record { table = self.old.table; words = self.old.words; kept = self.old.kept ++ at_lines first behind block ∷ [] }) }
        ensures err { OnErr result (self.new ≡ self.old) }
    {
        let block = self.blocks[at];
        let (first, behind) = (narrow(first)?, narrow(behind)?);
        self.blocks.push(BlockDigest {
            head: block.head,
            start: block.start,
            end: block.end,
            first,
            behind,
            has_own: block.has_own,
        })?;
        Ok(())
    }

    /// Puts the last blocks, so many, in place of those from one place up to another. Those behind them move by some lines: what began at
    /// the line `old` begins at the line `new`.
    pub fn replace(&mut self, from: usize, to: usize, count: usize, old: usize, new: usize)
        requires order { from ≤ to }
        requires within { to + count ≤ length self.old.kept }
        requires lines { All (CanMove old new) (slice_range self.old.kept to (length self.old.kept - count)) }
        ensures { self.new ≡ record { table = self.old.table; words = self.old.words; kept = replaced_by_last from to count old new self.old.kept } }
    {
        replace_blocks(&mut self.blocks, from, to, count, old, new);
    }
}

/// Puts the last blocks, so many, in place of those from one place up to another. Those behind them move by some lines.
fn replace_blocks(
    blocks: &mut Vec<BlockDigest>,
    from: usize,
    to: usize,
    count: usize,
    old: usize,
    new: usize,
)
    requires order { from ≤ to }
    requires within { to + count ≤ length blocks.old.items }
    requires lines { All (CanMove old new) (slice_range blocks.old.items to (length blocks.old.items - count)) }
    ensures { blocks.new.items ≡ replaced_by_last from to count old new blocks.old.items }
{
    let last = blocks.len() - count;
    if old != new {
        move_part(blocks, to, last, old, new);
    }
    replace_by_last(blocks, from, to, count);
}

/// Moves blocks by some lines: what began at the line `old` begins at the line `new`.
fn move_lines(blocks: &mut [BlockDigest], old: usize, new: usize)
    requires { All (CanMove old new) blocks.old }
    ensures { blocks.new ≡ map (moved_block old new) blocks.old }
{
    for block in blocks.iter_mut() {
        block.first = (block.first as usize - old + new) as u32;
        block.behind = (block.behind as usize - old + new) as u32;
    }
}

/// Moves the blocks from one place up to another by some lines.
fn move_part(blocks: &mut [BlockDigest], from: usize, to: usize, old: usize, new: usize)
    requires order { from ≤ to }
    requires within { to ≤ length blocks.old }
    requires lines { All (CanMove old new) (slice_range blocks.old from to) }
    ensures { blocks.new ≡ take from blocks.old ++ (map (moved_block old new) (slice_range blocks.old from to) ++ drop to blocks.old) }
{
    move_lines(&mut blocks[from..to], old, new);
}

/// Puts the last items, so many, before those from one place on.
fn move_last(items: &mut [BlockDigest], from: usize, count: usize)
    requires { from + count ≤ length items.old }
    ensures { items.new ≡ take from items.old ++ (drop (length items.old - count) items.old ++ slice_range items.old from (length items.old - count)) }
{
    items[from..].rotate_right(count);
}

/// Puts the last items, so many, in place of those from one place up to another.
fn replace_by_last(items: &mut Vec<BlockDigest>, from: usize, to: usize, count: usize)
    requires order { from ≤ to }
    requires within { to + count ≤ length items.old.items }
    ensures { items.new.items ≡ take from items.old.items ++ (drop (length items.old.items - count) items.old.items ++ slice_range items.old.items to (length items.old.items - count)) }
{
    let start = items.len() - count;
    if to - from == count {
        items.copy_within(start.., from);
        items.truncate(start);
        return;
    }
    move_last(items, from, count);
    items.copy_within(to + count.., from + count);
    let kept = items.len() - (to - from);
    items.truncate(kept);
}
