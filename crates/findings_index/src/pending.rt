//! Marks of names by the blocks that are pending.
//!
//! At first all blocks are pending. A block that is visited is pending no more. Where it marks its name, the blocks that use this name are
//! pending again, but for large ones. Each name is marked once, so a block that isn't large is visited once, and once more for each name
//! that stands in its words. That all is marked a sweep says, which comes to the large ones too.

ghost use Rattle.std.specs.Prelude.{◌≡◌, ◌≤◌, List as Listed, IfNone, IfOk, IfSome, OnOk};
ghost use Rattle.abnf_parts.specs.Names.{Name};
ghost use Rattle.findings_index.specs.own.Pending as spec;
ghost use Rattle.findings_index.specs.own.Ways.{AreSoundByWayFor, count_unmarked};

use crate::digest::BlockDigest;
use crate::sweep::{SweptBlocks, Way, visit};
use crate::word::Word;
use ls_lists::List;
use std::alloc::{AllocError, Global};

/// So many words make a block large.
const LARGE: usize = 256;

/// Adds a block to the users of the name that a word is.
fn add_user(block: usize, word: Word, users: &mut [List<usize>]) -> Result<(), AllocError> {
    if let Word::Name(number) = word {
        let number = number as usize;
        if number < users.len() {
            users[number].push(block)?;
        }
    }
    Ok(())
}

/// Adds a block to the users of the names in its words.
fn add_users(block: usize, words: &[Word], users: &mut [List<usize>]) -> Result<(), AllocError> {
    for word in words {
        add_user(block, *word, users)?;
    }
    Ok(())
}

/// The words of a block that isn't large.
fn words_at<'w>(words: &'w [Word], block: BlockDigest) -> &'w [Word] {
    match words.get(block.start as usize..block.end as usize) {
        Some(words) => { if words.len() < LARGE { words } else { &[] } }
        None => &[],
    }
}

/// For each of so many names the blocks that use it, but for large ones, each as often as the name stands there.
///
/// # Errors
///
/// Where an allocation is refused.
pub(crate) fn users_of(
    alloc: Global,
    count: usize,
    words: &[Word],
    blocks: &[BlockDigest],
) -> Result<Vec<List<usize>>, AllocError> {
    let mut users = Vec::with_capacity(alloc, count)?;
    for _ in 0..count {
        users.push(List::new(alloc))?;
    }
    for place in 0..blocks.len() {
        add_users(place, words_at(words, blocks[place]), &mut users)?;
    }
    Ok(users)
}

/// The places of so many blocks.
fn all_places(alloc: Global, count: usize) -> Result<List<usize>, AllocError> {
    let mut places = List::new(alloc);
    places.reserve(count)?;
    for place in 0..count {
        places.push(place)?;
    }
    Ok(places)
}

/// Adds the users of a name.
fn add_users_of(
    name: usize,
    users: &[List<usize>],
    pending: &mut List<usize>,
) -> Result<(), AllocError> {
    if let Some(places) = users.get(name) {
        for place in places.as_slice() {
            pending.push(*place)?;
        }
    }
    Ok(())
}

/// Visits the block at a place. The name that it marks, if it marks one.
fn visit_at(
    way: Way,
    swept: &SweptBlocks<'_>,
    place: usize,
    marks: &mut [bool],
    stack: &mut Vec<bool>,
) -> Result<Option<usize>, AllocError>
    ensures some { IfOk result (λ marked. IfSome marked (λ name. spec.IsMarkedAt way swept.now.words.now swept.now.blocks.now swept.now.roles.now marks.old place name marks.new)) }
    ensures none { IfOk result (λ marked. IfNone marked (marks.new ≡ marks.old)) }
{
    let Some(block) = swept.blocks.get(place) else {
        return Ok(None);
    };
    let Some(role) = swept.roles.get(place) else {
        return Ok(None);
    };
    let Some(head) = block.head else {
        return Ok(None);
    };
    if visit(way, swept.words, *block, *role, marks, stack)? {
        Ok(Some(head.name as usize))
    } else {
        Ok(None)
    }
}

/// Visits pending blocks, the last one first, until one marks its name. That name, if there is one.
fn mark_next(
    way: Way,
    swept: &SweptBlocks<'_>,
    pending: &mut List<usize>,
    marks: &mut [bool],
    stack: &mut Vec<bool>,
) -> Result<Option<usize>, AllocError>
    ensures some { IfOk result (λ marked. IfSome marked (λ name. spec.MarksNext way swept.now.words.now swept.now.blocks.now swept.now.roles.now marks.old name marks.new)) }
    ensures none { IfOk result (λ marked. IfNone marked (marks.new ≡ marks.old)) }
{
    while let Some(place) = pending.pop() {
        if let Some(name) = visit_at(way, swept, place, marks, stack)? {
            return Ok(Some(name));
        }
    }
    Ok(None)
}

/// Visits all blocks, and each again that uses a name that was marked, but for large ones.
///
/// # Errors
///
/// Where an allocation is refused.
pub(crate) fn visit_all(
    alloc: Global,
    way: Way,
    swept: &SweptBlocks<'_>,
    users: &[List<usize>],
    marks: &mut [bool],
    stack: &mut Vec<bool>,
) -> Result<(), AllocError>
    ensures sound { OnOk result ((table : Listed Name) → AreSoundByWayFor way table swept.now.words.now swept.now.blocks.now swept.now.roles.now marks.old →
        AreSoundByWayFor way table swept.now.words.now swept.now.blocks.now swept.now.roles.now marks.new) }
    ensures few { OnOk result (count_unmarked marks.new ≤ count_unmarked marks.old) }
{
    let mut pending = all_places(alloc, swept.blocks.len())?;
    while let Some(name) = mark_next(way, swept, &mut pending, marks, stack)? {
        add_users_of(name, users, &mut pending)?;
    }
    Ok(())
}
