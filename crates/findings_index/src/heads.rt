//! What is told of the heads of blocks by the heads before them.

ghost use Rattle.std.specs.Prelude.{◌≡◌, true, length, List, IfOk, slice_set};
ghost use Rattle.abnf_digests.specs.Digests.{Digest};
ghost use Rattle.findings_index.specs.declared.word.Word.{Word};
ghost use Rattle.findings_index.specs.own.HeadRoles as spec;
ghost use Rattle.findings_index.specs.Stored.{AreStored};

use crate::digest::{BlockDigest, HeadNumber};
use crate::evaluate::is_marked;
use crate::table::NameTable;
use std::alloc::{AllocError, Global};

/// Whether a head is a duplicate, whether it adds to nothing, and whether it is the first of its name. Of a block without head it is none
/// of these.
#[derive(Clone, Copy)]
pub(crate) struct HeadRole {
    pub is_duplicate: bool,
    pub has_no_base: bool,
    pub is_first: bool,
}

/// Marks the name with this number.
pub(crate) fn mark(marks: &mut [bool], number: usize)
    ensures { marks.new ≡ slice_set marks.old number true }
{
    if number < marks.len() {
        marks[number] = true;
    }
}

/// The role of a head, by marks of the names that were seen, and of those that were seen with `=`.
fn role_in(head: Option<HeadNumber>, seen: &[bool], based: &[bool]) -> HeadRole
    ensures { result ≡ spec.role_in seen.now based.now head }
{
    match head {
        Some(head) => {
            let is_seen = is_marked(seen, head.name as usize);
            let has_base = is_marked(based, head.name as usize);
            HeadRole {
                is_duplicate: !head.adds && has_base,
                has_no_base: head.adds && !has_base,
                is_first: !is_seen,
            }
        }
        None => HeadRole {
            is_duplicate: false,
            has_no_base: false,
            is_first: false,
        },
    }
}

/// Marks the name of a head.
pub(crate) fn see(head: Option<HeadNumber>, seen: &mut [bool])
    ensures { seen.new ≡ spec.seen_with head seen.old }
{
    if let Some(head) = head {
        mark(seen, head.name as usize);
    }
}

/// Marks the name of a head with `=`.
fn base(head: Option<HeadNumber>, based: &mut [bool])
    ensures { based.new ≡ spec.based_with head based.old }
{
    if let Some(head) = head {
        if !head.adds {
            mark(based, head.name as usize);
        }
    }
}

/// The roles of the heads of all blocks, block for block.
///
/// # Errors
///
/// Where an allocation is refused.
pub(crate) fn roles(
    alloc: Global,
    names: &NameTable,
    blocks: &[BlockDigest],
) -> Result<Vec<HeadRole>, AllocError>
    ensures one_each { IfOk result (λ roles. length roles.items ≡ length blocks.now) }
    ensures roles { IfOk result (λ roles. (words : List Word) (digests : List Digest) → AreStored names.now words blocks.now digests → spec.AreRoles digests roles.items) }
{
    let count = names.len();
    let mut seen = vec![in alloc; false; count]?;
    let mut based = vec![in alloc; false; count]?;
    let mut roles = Vec::with_capacity(alloc, blocks.len())?;
    for block in blocks {
        let role = role_in(block.head, &seen, &based);
        see(block.head, &mut seen);
        base(block.head, &mut based);
        roles.push(role)?;
    }
    Ok(roles)
}
