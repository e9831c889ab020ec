//! Marks of names by sweeps over the blocks.
//!
//! A sweep marks the name of each block that counts and says so by the names that are marked. Where it marks none, all are marked that are
//! to be. A sweep goes backwards, the next one forwards: most grammars define a name further down than they use it, so that the first sweep
//! marks nearly all names; in the others the second one does.

ghost use Rattle.std.specs.Prelude.{◌≡◌, ◌-◌, ◌<◌, ℕ, true, false, length, List, IfOk, OnOk, flat_map, if◌then◌else◌};
ghost use Rattle.std.specs.List.{list_any};
ghost use Rattle.abnf_parts.specs.Names.{Name};
ghost use Rattle.abnf_parts.specs.Part.{Part};
ghost use Rattle.abnf_lint.specs.Marks.{mark_at};
ghost use Rattle.findings_index.specs.Words.{words_of};
ghost use Rattle.findings_index.specs.own.Ways as spec;

use crate::digest::BlockDigest;
use crate::evaluate::{hold, is_marked};
use crate::heads::{HeadRole, mark};
use crate::pending::{users_of, visit_all};
use crate::word::Word;
use std::alloc::{AllocError, Global};

/// Which names are marked: those that hold, or those that lead to something opaque.
#[derive(Clone, Copy)]
pub(crate) enum Way {
    Holding,
    Leading,
}

/// What is swept: the words of all blocks, the blocks, and for each the role of its head.
#[derive(Clone, Copy)]
pub(crate) struct SweptBlocks<'b> {
    pub words: &'b [Word],
    pub blocks: &'b [BlockDigest],
    pub roles: &'b [HeadRole],
}

/// Whether a word is opaque, or a marked name.
fn is_leading(word: Word, marks: &[bool]) -> bool
    ensures { result ≡ spec.is_leading_word (mark_at marks.now) word }
{
    match word {
        Word::Name(number) => is_marked(marks, number as usize),
        Word::Opaque => true,
        _ => false,
    }
}

/// Whether one of these words is opaque, or a marked name.
fn one_leads(words: &[Word], marks: &[bool]) -> bool
    ensures { result ≡ list_any (spec.is_leading_word (mark_at marks.now)) words.now }
{
    words.iter().any(|word| is_leading(*word, marks))
}

/// Whether one of the gists in these words is a reason to mark a name.
fn says(way: Way, words: &[Word], marks: &[bool], stack: &mut Vec<bool>) -> Result<bool, AllocError>
    ensures { IfOk result (λ answer. (number : Name → ℕ) (parts : List Part) → words.now ≡ flat_map (words_of number) parts →
        list_any (spec.says way (λ name. mark_at marks.now (number name))) parts ≡ answer) }
{
    match way {
        Way::Holding => hold(words, marks, stack),
        Way::Leading => Ok(one_leads(words, marks)),
    }
}

/// Marks the name of a block that counts, if it isn't marked and one of the block's gists is a reason. Says whether it does.
pub(crate) fn visit(
    way: Way,
    words: &[Word],
    block: BlockDigest,
    role: HeadRole,
    marks: &mut [bool],
    stack: &mut Vec<bool>,
) -> Result<bool, AllocError>
    ensures marked { IfOk result (λ any. any ≡ true → spec.IsMarkedSo way words.now marks.old block role marks.new) }
    ensures rest { IfOk result (λ any. any ≡ false → (marks.new ≡ marks.old) × spec.IsSwept way words.now marks.old block role) }
{
    let Some(head) = block.head else {
        return Ok(false);
    };
    let name = head.name as usize;
    if role.is_duplicate || name >= marks.len() || is_marked(marks, name) {
        return Ok(false);
    }
    let Some(gists) = words.get(block.start as usize..block.end as usize) else {
        return Ok(false);
    };
    if !says(way, gists, marks, stack)? {
        return Ok(false);
    }
    mark(marks, name);
    Ok(true)
}

/// The place to which a sweep comes after so many others.
fn place_of(backwards: bool, count: usize, passed: usize) -> usize
    requires { passed < count }
    ensures is { result ≡ (if backwards then count - 1 - passed else passed) }
    ensures within { result < count }
{
    if backwards {
        count - 1 - passed
    } else {
        passed
    }
}

/// Visits all blocks, backwards or forwards. Says whether a name was marked.
fn sweep(
    way: Way,
    backwards: bool,
    swept: &SweptBlocks<'_>,
    marks: &mut [bool],
    stack: &mut Vec<bool>,
) -> Result<bool, AllocError>
    requires { length swept.now.roles.now ≡ length swept.now.blocks.now }
    ensures sound { IfOk result (λ any. (table : List Name) → spec.AreSoundByWayFor way table swept.now.words.now swept.now.blocks.now swept.now.roles.now marks.old →
        spec.AreSoundByWayFor way table swept.now.words.now swept.now.blocks.now swept.now.roles.now marks.new) }
    ensures done { IfOk result (λ any. any ≡ false → spec.AreSwept way swept.now.words.now swept.now.blocks.now swept.now.roles.now marks.new) }
    ensures few { IfOk result (λ any. any ≡ true → spec.count_unmarked marks.new < spec.count_unmarked marks.old) }
{
    let mut any = false;
    for passed in 0..swept.blocks.len() {
        let place = place_of(backwards, swept.blocks.len(), passed);
        if visit(
            way,
            swept.words,
            swept.blocks[place],
            swept.roles[place],
            marks,
            stack,
        )? {
            any = true;
        }
    }
    Ok(any)
}

/// Sweeps all blocks, backwards and then forwards. Where names are marked even so, all blocks are visited, and each again that uses a name
/// that was marked, until no block marks another.
///
/// # Errors
///
/// Where an allocation is refused.
pub(crate) fn sweep_all(
    alloc: Global,
    way: Way,
    swept: &SweptBlocks<'_>,
    marks: &mut [bool],
    stack: &mut Vec<bool>,
) -> Result<(), AllocError>
    requires { length swept.now.roles.now ≡ length swept.now.blocks.now }
    ensures sound { OnOk result ((table : List Name) → spec.AreSoundByWayFor way table swept.now.words.now swept.now.blocks.now swept.now.roles.now marks.old →
        spec.AreSoundByWayFor way table swept.now.words.now swept.now.blocks.now swept.now.roles.now marks.new) }
    ensures done { OnOk result (spec.AreSwept way swept.now.words.now swept.now.blocks.now swept.now.roles.now marks.new) }
{
    if !sweep(way, true, swept, marks, stack)? {
        return Ok(());
    }
    if !sweep(way, false, swept, marks, stack)? {
        return Ok(());
    }
    let users = users_of(alloc, marks.len(), swept.words, swept.blocks)?;
    while sweep(way, true, swept, marks, stack)? {
        visit_all(alloc, way, swept, &users, marks, stack)?;
    }
    Ok(())
}
