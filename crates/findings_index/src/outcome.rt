//! What the blocks of a text tell of each other, by their digests.

ghost use Rattle.std.specs.Prelude.{◌≡◌, ◌<◌, ℕ, List, IfOk, IsTrue, OnOk, Some, length};
ghost use Rattle.abnf_parts.specs.Names.{Name, rule_number};
ghost use Rattle.abnf_lint.specs.Marks.{mark_at};
ghost use Rattle.abnf_digests.specs.Digests.{Digest};
ghost use Rattle.findings_index.specs.declared.word.Word.{Word};
ghost use Rattle.findings_index.specs.ByTable.{AreDefinedMarks, AreFlagged, name_mark, strange_by};
ghost use Rattle.findings_index.specs.own.Flags as spec;
ghost use Rattle.findings_index.specs.own.HeadRoles.{AreRoles};
ghost use Rattle.findings_index.specs.Outcomes.{FindsAt, IsOutcome, IsQuietAt};
ghost use Rattle.findings_index.specs.Stored.{AreStored};
ghost use Rattle.findings_index.specs.own.Ways.{AreCoreMarks, AreHeadMarks, held_at};

use crate::digest::{BlockDigest, HeadNumber};
use crate::evaluate::is_marked;
use crate::found_in::{BlockTold, push_found};
use crate::heads::{HeadRole, roles, see};
use crate::quiet::{is_silent, uses_strange};
use crate::settling::{core_marks, lead, settle};
use crate::store::Digests;
use crate::sweep::SweptBlocks;
use crate::table::NameTable;
use abnf_lint::Finding;
use abnf_names::Section;
use ls_lists::List;
use std::alloc::{AllocError, Global};

/// Marks of the names that blocks define.
fn defined_marks(
    alloc: Global,
    names: &NameTable,
    blocks: &[BlockDigest],
) -> Result<Vec<bool>, AllocError>
    ensures heads { IfOk result (λ marks. AreHeadMarks names.now blocks.now marks.items) }
    ensures names { IfOk result (λ marks. (words : List Word) (digests : List Digest) → AreStored names.now words blocks.now digests → AreDefinedMarks digests names.now marks.items) }
{
    let mut marks = vec![in alloc; false; names.len()]?;
    for block in blocks {
        see(block.head, &mut marks);
    }
    Ok(marks)
}

/// Whether the name of a head is idle, so that it neither holds nor leads to something opaque.
fn is_idle(head: Option<HeadNumber>, held: &[bool], led: &[bool]) -> bool
    ensures { result ≡ spec.is_idle held.now led.now head }
{
    match head {
        Some(head) => !is_marked(held, head.name as usize) && !is_marked(led, head.name as usize),
        None => false,
    }
}

/// What is told of a block with this head, whose role is this.
fn flag(head: Option<HeadNumber>, role: HeadRole, held: &[bool], led: &[bool]) -> BlockTold
    ensures { result ≡ spec.flag held.now led.now head role }
{
    BlockTold {
        is_duplicate: role.is_duplicate,
        has_no_base: role.has_no_base,
        is_first: role.is_first,
        is_idle: is_idle(head, held, led),
    }
}

/// What is told of each block, by the roles of their heads, and by marks of the names that hold and of those that lead to something opaque.
fn flags(
    alloc: Global,
    blocks: &[BlockDigest],
    roles: &[HeadRole],
    held: &[bool],
    led: &[bool],
) -> Result<Vec<BlockTold>, AllocError>
    ensures { IfOk result (λ flags. (table : List Name) (words : List Word) (digests : List Digest) → AreStored table words blocks.now digests →
        AreRoles digests roles.now → AreFlagged digests (held_at table held.now) (name_mark table led.now) flags.items) }
{
    let mut flags = Vec::with_capacity(alloc, blocks.len())?;
    let mut left = roles;
    for block in blocks {
        let Some((role, rest)) = left.split_first() else {
            return Ok(flags);
        };
        flags.push(flag(block.head, *role, held, led))?;
        left = rest;
    }
    Ok(flags)
}

/// What all blocks together tell of each: what is told of it, which names blocks define, and which stand for nothing.
#[derive(Drop)]
pub struct NameIndex {
    pub tolds: Vec<BlockTold>,
    pub defined: Vec<bool>,
    pub strange: Vec<bool>,
}

/// Whether the name with this number is marked neither as one that a block defines nor as one of a core rule.
fn is_strange(defined: &[bool], core: &[bool], number: usize) -> bool
    ensures { result ≡ spec.is_strange_number defined.now core.now number }
{
    !is_marked(defined, number) && !is_marked(core, number)
}

/// Marks of the names that no block defines and no core rule has, by marks of those that blocks define, and of those of core rules that
/// none defines.
fn strange_marks(alloc: Global, defined: &[bool], core: &[bool]) -> Result<Vec<bool>, AllocError>
    ensures { IfOk result (λ marks. (table : List Name) (blocks : List BlockDigest) → AreHeadMarks table blocks defined.now → AreCoreMarks table blocks core.now →
        (number : ℕ) (name : Name) → rule_number table name ≡ Some number → mark_at marks.items number ≡ strange_by table defined.now name) }
{
    let mut marks = Vec::with_capacity(alloc, defined.len())?;
    for number in 0..defined.len() {
        marks.push(is_strange(defined, core, number))?;
    }
    Ok(marks)
}

impl Digests {
    /// What the blocks tell of each other.
    ///
    /// # Errors
    ///
    /// Where an allocation is refused.
    pub fn outcome(&self, alloc: Global) -> Result<NameIndex, AllocError>
        ensures { IfOk result (IsOutcome self.now) }
    {
        let names = &self.names;
        let words = self.words.as_slice();
        let blocks = self.blocks.as_slice();
        let roles = roles(alloc, names, blocks)?;
        let defined = defined_marks(alloc, names, blocks)?;
        let core = core_marks(alloc, names, &defined)?;
        let strange = strange_marks(alloc, &defined, &core)?;
        let swept = SweptBlocks {
            words,
            blocks,
            roles: &roles,
        };
        let held = settle(alloc, &swept, core)?;
        let led = lead(alloc, names, &swept, &held)?;
        let tolds = flags(alloc, blocks, &roles, &held, &led)?;
        Ok(NameIndex {
            tolds,
            defined,
            strange,
        })
    }

    /// Whether its digest and what is told of it say that nothing is found in the block at a place, so that it needn't be read.
    pub fn is_quiet(&self, outcome: &NameIndex, at: usize) -> bool
        requires { IsOutcome self.now outcome.now }
        ensures { IsTrue result → IsQuietAt self.now outcome.now at }
    {
        let Some(block) = self.blocks.get(at) else {
            return false;
        };
        let Some(told) = outcome.tolds.get(at) else {
            return false;
        };
        !block.has_own && is_silent(*told) && !uses_strange(&self.words, *block, &outcome.strange)
    }

    /// Adds what is found in the block at a place, whose section this is.
    ///
    /// # Errors
    ///
    /// Where an allocation is refused. What was found before stays.
    pub fn push_found(
        &self,
        alloc: Global,
        outcome: &NameIndex,
        at: usize,
        section: &Section<'_>,
        found: &mut List<Finding>,
    ) -> Result<(), AllocError>
        requires { at < length outcome.now.tolds.items }
        ensures { OnOk result (FindsAt self.now outcome.now at section.now found.old found.new) }
    {
        let told = outcome.tolds[at];
        push_found(alloc, &self.names, &outcome.defined, told, section, found)
    }
}
