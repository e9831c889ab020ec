//! The blocks of a text, as they are kept.

ghost use Rattle.std.specs.Prelude.{◌≡◌, ◌≤◌, ◌<◌, ◌^◌, ℕ, List, [], None, IfOk, IfSome, OnOk, length, true};
ghost use Rattle.abnf_syntax.specs.Blocks.{IsSeam, line_texts};
ghost use Rattle.abnf_lint.specs.Rows.{AreRows};
ghost use Rattle.abnf_digests.specs.Replaced.{AreReplaced};
ghost use Rattle.findings_index.specs.KeptBlocks.{IsKeptOf};
ghost use Rattle.findings_index.specs.Outcomes.{IsOutcome};
ghost use Rattle.incremental_findings.specs.own.Parts.{HasTokens, IsDifference};
ghost use Rattle.incremental_findings.specs.own.Reads.{AddsBetween, FindsIn};
ghost use Rattle.incremental_findings.specs.own.Reads as spec;

use crate::before::{Before, like, next_block};
use crate::difference::Change;
use abnf_lint::Finding;
use abnf_names::section_of;
use abnf_syntax::{Block, Item, Sheet, Spare};
use abnf_token::{Folded, Kind};
use findings_index::{BlockDigest, Digests, NameIndex};
use ls_lists::List;
use std::alloc::{AllocError, Global};
use std::marker::Model;

/// How many names may be new behind those that were read with all blocks. The seed of their table is made of the text that was read
/// then, so whoever writes the next one may choose names that meet in it: of more the text is read anew, with a seed of its own.
const NEW_NAMES: usize = 1024;

/// How many words may be left behind beside as many as were read with all blocks.
const LEFT_WORDS: usize = 1024;

/// Of more lines blocks aren't moved: their numbers have 32 bits.
const MOST_LINES: usize = 0xFFFF_FFFF;

/// What is kept of the blocks of a text. Contracts see it as digests have it.
#[derive(Drop)]
pub struct KeptBlocks {
    digests: Digests,
    /// How many names and words there may be before all blocks are better read anew.
    most_names: usize,
    most_words: usize,
}

impl Model for KeptBlocks {
    ghost use Rattle.findings_index.specs.Stored.{Stored};

    ghost Value = { Stored };

    ghost view = { λ b. b.digests };
}

/// Whether there are at most so many names with those of a block, each of its new ones counted as often as it stands there.
fn has_room(digests: &Digests, items: &[Item<'_>], most: usize) -> Result<bool, AllocError> {
    let mut count = digests.name_count();
    if items.len() <= most.saturating_sub(count) {
        return Ok(true);
    }
    for item in items {
        if item.token.kind == Kind::Name && !digests.has_name(Folded(item.token.text))? {
            if count >= most {
                return Ok(false);
            }
            count += 1;
        }
    }
    Ok(true)
}

/// Whether a block's names have room, if there is a bound for them.
fn is_room_for(
    digests: &Digests,
    items: &[Item<'_>],
    before: &Option<Before>,
) -> Result<bool, AllocError>
    ensures { before.now ≡ None → IfOk result (λ is. is ≡ true) }
{
    match before {
        Some(before) => has_room(digests, items, before.most_names),
        None => Ok(true),
    }
}

/// Keeps the blocks of the lines from one place up to another, over neither of which a block goes, behind the others. What is kept of a
/// block of the text before that says the same is kept once more; else a block is read and let go, and the room of its items serves the
/// next one. Where the text before sets a bound on names and they come to be more, it says so, and no more is known of what is kept.
fn read(
    alloc: Global,
    sheet: &Sheet,
    from: usize,
    to: usize,
    before: Option<Before>,
    digests: &mut Digests,
) -> Result<bool, AllocError>
    requires order { from ≤ to }
    requires seams { IsSeam sheet.now from × IsSeam sheet.now to }
    requires before { IfSome before (λ b. IsKeptOf b.sheet.now digests.old × spec.IsBefore sheet.now b × (b.to ≤ b.count) × (b.count ≡ length digests.old.kept)) }
    ensures added { IfOk result (λ are_all. are_all ≡ true → AddsBetween sheet.now from to digests.old digests.new) }
    ensures unbounded { before.entry ≡ None → IfOk result (λ are_all. are_all ≡ true) }
{
    let mut spare = Spare::new(alloc);
    let mut room = List::new(alloc);
    let mut about = match &before {
        Some(before) => before.from,
        None => 0,
    };
    let mut first = next_block(&before, digests.blocks(), sheet, from, to);
    'blocks: while first < to {
        let end = next_block(&before, digests.blocks(), sheet, first + 1, to);
        if let Some(at) = like(&before, digests.blocks(), about, sheet, first, end) {
            digests.push_again(at, first, end)?;
            about = at.saturating_add(1);
        } else {
            let block = Block::of(room, sheet, first, end)?;
            if !is_room_for(digests, block.items.as_slice(), &before)? {
                return Ok(false);
            }
            let section = section_of(alloc, block)?;
            digests.push(alloc, &mut spare, &section)?;
            room = section.block.items;
            about = about.saturating_add(1);
        }
        first = end;
    }
    Ok(true)
}

impl KeptBlocks {
    /// What is to be kept of the blocks of a text, whose lines these are.
    ///
    /// # Errors
    ///
    /// Where an allocation is refused.
    pub fn of(alloc: Global, sheet: &Sheet) -> Result<KeptBlocks, AllocError>
        ensures { IfOk result (λ blocks. IsKeptOf sheet.now blocks) }
    {
        let mut digests = Digests::new(alloc, sheet.seed());
        read(alloc, sheet, 0, sheet.count(), None, &mut digests)?;
        Ok(KeptBlocks {
            most_names: digests.name_count().saturating_add(NEW_NAMES),
            most_words: digests
                .word_count()
                .saturating_mul(2)
                .saturating_add(LEFT_WORDS),
            digests,
        })
    }

    /// The blocks, in order.
    pub fn blocks(&self) -> &[BlockDigest]
        ensures { result.now ≡ self.now.kept }
    {
        self.digests.blocks()
    }

    /// What is to be kept of the blocks of another text, which differs in a part alone. Only the part's blocks are read, unless too many
    /// words are left behind, or too many names are new, or there are more lines than 32 bits number.
    ///
    /// # Errors
    ///
    /// Where an allocation is refused.
    pub fn followed(
        self,
        alloc: Global,
        ours: &Sheet,
        theirs: &Sheet,
        change: &Change,
    ) -> Result<KeptBlocks, AllocError>
        requires kept { IsKeptOf ours.now self }
        requires replaced { AreReplaced ours.now theirs.now change.now.blocks.front change.now.blocks.old change.now.blocks.new }
        requires lines { IsDifference ours.now theirs.now change.now.lines }
        requires tokens { HasTokens ours.now }
        ensures { IfOk result (λ blocks. IsKeptOf theirs.now blocks) }
    {
        let KeptBlocks {
            mut digests,
            most_names,
            most_words,
        } = self;
        if digests.word_count() > most_words || theirs.count() > MOST_LINES {
            return KeptBlocks::of(alloc, theirs);
        }
        let part = change.blocks;
        let blocks = digests.blocks();
        let count = blocks.len();
        let from = blocks.partition_point(|block| (block.first as usize) < part.front);
        let to = blocks.partition_point(|block| (block.first as usize) < part.old);
        let before = Before {
            sheet: ours,
            lines: change.lines,
            count,
            from,
            to,
            most_names,
        };
        if !read(
            alloc,
            theirs,
            part.front,
            part.new,
            Some(before),
            &mut digests,
        )? {
            return KeptBlocks::of(alloc, theirs);
        }
        let come = digests.blocks().len() - count;
        digests.replace(from, to, come, part.old, part.new);
        Ok(KeptBlocks {
            digests,
            most_names,
            most_words,
        })
    }

    /// Adds what is found in the block at a place.
    fn push_found(
        &self,
        alloc: Global,
        sheet: &Sheet,
        outcome: &NameIndex,
        at: usize,
        found: &mut List<Finding>,
    ) -> Result<(), AllocError>
        requires kept { IsKeptOf sheet.now self.now }
        requires outcome { IsOutcome self.now outcome.now }
        requires within { at < length self.now.kept }
        ensures { OnOk result (FindsIn sheet.now self.now outcome.now at found.old found.new) }
    {
        let kept = self.digests.blocks()[at];
        let block = Block::of(
            List::new(alloc),
            sheet,
            kept.first as usize,
            kept.behind as usize,
        )?;
        let section = section_of(alloc, block)?;
        self.digests.push_found(alloc, outcome, at, &section, found)
    }

    /// What is found in the text whose lines these are.
    ///
    /// # Errors
    ///
    /// Where an allocation is refused.
    pub fn findings(&self, alloc: Global, sheet: &Sheet) -> Result<List<Finding>, AllocError>
        requires { IsKeptOf sheet.now self.now }
        ensures { IfOk result (λ rows. (text : List ℕ) → sheet.now ≡ line_texts text → AreRows text rows) }
    {
        let outcome = self.digests.outcome(alloc)?;
        let mut found = List::new(alloc);
        for at in 0..self.digests.blocks().len() {
            if !self.digests.is_quiet(&outcome, at) {
                self.push_found(alloc, sheet, &outcome, at, &mut found)?;
            }
        }
        Ok(found)
    }
}
