//! Which names hold, and which lead to something opaque.

ghost use Rattle.std.specs.Prelude.{◌≡◌, length, List, IfOk};
ghost use Rattle.std.specs.List.{list_any};
ghost use Rattle.abnf_parts.specs.Names.{Name};
ghost use Rattle.findings_index.specs.own.Ways as spec;

use crate::digest::{BlockDigest, HeadNumber};
use crate::evaluate::is_marked;
use crate::sweep::{SweptBlocks, Way, sweep_all};
use crate::table::NameTable;
use std::alloc::{AllocError, Global};

/// Whether the name with this number isn't marked as one that a block defines, and a core rule has it.
fn is_of_core(names: &NameTable, defined: &[bool], number: usize) -> bool
    ensures { result ≡ spec.is_of_core names.now defined.now number }
{
    !is_marked(defined, number) && names.is_core(number)
}

/// Marks of the names of core rules that no block defines, by marks of the names that blocks define. Only a name that isn't marked there is
/// compared with those of core rules.
///
/// # Errors
///
/// Where an allocation is refused.
pub(crate) fn core_marks(
    alloc: Global,
    names: &NameTable,
    defined: &[bool],
) -> Result<Vec<bool>, AllocError>
    ensures { IfOk result (λ marks. (blocks : List BlockDigest) → spec.AreHeadMarks names.now blocks defined.now → spec.AreCoreMarks names.now blocks marks.items) }
{
    let mut marks = Vec::with_capacity(alloc, names.len())?;
    for number in 0..names.len() {
        marks.push(is_of_core(names, defined, number))?;
    }
    Ok(marks)
}

/// Marks of the names that hold, by those of core rules that no block defines.
///
/// # Errors
///
/// Where an allocation is refused.
pub(crate) fn settle(
    alloc: Global,
    swept: &SweptBlocks<'_>,
    core: Vec<bool>,
) -> Result<Vec<bool>, AllocError>
    requires { length swept.now.roles.now ≡ length swept.now.blocks.now }
    ensures { IfOk result (λ marks. (table : List Name) → spec.AreCoreMarks table swept.now.blocks.now core.items →
        spec.AreHoldingMarksFor table swept.now.words.now swept.now.blocks.now swept.now.roles.now marks.items) }
{
    let mut marks = core;
    let mut stack = Vec::new(alloc);
    sweep_all(alloc, Way::Holding, swept, &mut marks, &mut stack)?;
    Ok(marks)
}

/// Marks of the names that lead to something opaque.
fn leading_marks(
    alloc: Global,
    names: &NameTable,
    swept: &SweptBlocks<'_>,
) -> Result<Vec<bool>, AllocError>
    requires { length swept.now.roles.now ≡ length swept.now.blocks.now }
    ensures { IfOk result (λ marks. spec.AreLeadingMarksFor names.now swept.now.words.now swept.now.blocks.now swept.now.roles.now marks.items) }
{
    let mut marks = vec![in alloc; false; names.len()]?;
    let mut stack = Vec::new(alloc);
    sweep_all(alloc, Way::Leading, swept, &mut marks, &mut stack)?;
    Ok(marks)
}

/// Whether the name of a head isn't marked.
fn is_unmarked(head: Option<HeadNumber>, marks: &[bool]) -> bool
    ensures { result ≡ spec.is_unmarked marks.now head }
{
    match head {
        Some(head) => !is_marked(marks, head.name as usize),
        None => false,
    }
}

/// Whether the name of one of the heads isn't marked.
fn one_is_unmarked(blocks: &[BlockDigest], marks: &[bool]) -> bool
    ensures { result ≡ list_any (λ block. spec.is_unmarked marks.now block.head) blocks.now }
{
    blocks.iter().any(|block| is_unmarked(block.head, marks))
}

/// Marks by which it is known of each head's name that doesn't hold whether it leads to something opaque. Where the names of all heads hold, as they mostly do, nothing is marked and no memory is taken.
///
/// # Errors
///
/// Where an allocation is refused.
pub(crate) fn lead(
    alloc: Global,
    names: &NameTable,
    swept: &SweptBlocks<'_>,
    held: &[bool],
) -> Result<Vec<bool>, AllocError>
    requires { length swept.now.roles.now ≡ length swept.now.blocks.now }
    ensures { IfOk result (λ marks. spec.AreHeadsLedFor names.now swept.now.words.now swept.now.blocks.now swept.now.roles.now held.now marks.items) }
{
    if one_is_unmarked(swept.blocks, held) {
        leading_marks(alloc, names, swept)
    } else {
        Ok(Vec::new(alloc))
    }
}
