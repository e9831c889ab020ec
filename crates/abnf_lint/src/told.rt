//! What is found in a block by what the other blocks say of its names.

ghost use Rattle.std.specs.Prelude.{◌≡◌, ◌++◌, OnOk};
ghost use Rattle.abnf_lint.specs.Found as spec;

use crate::finding::{Code, Finding};
use crate::item::{Names, push_fault, push_if, push_items};
use abnf_names::Section;
use abnf_syntax::{Head, place_of};
use ls_lists::List;
use std::alloc::{AllocError, Global};

/// What is known of a block's head by the other blocks.
#[derive(Clone, Copy)]
pub struct HeadTold {
    /// It defines a name that an earlier block defines with `=` too.
    pub is_duplicate: bool,
    /// It adds to a name that no earlier block defines with `=`.
    pub has_no_base: bool,
    /// It is the first of a rule that is unproductive.
    pub is_unproductive: bool,
}

/// Adds what is found at a head of which this is known.
///
/// # Errors
///
/// Where an allocation is refused.
pub fn push_head(
    alloc: Global,
    told: HeadTold,
    head: Head<'_>,
    found: &mut List<Finding>,
) -> Result<(), AllocError>
    ensures { OnOk result (found.new ≡ found.old ++ spec.head_found told head.entry) }
{
    let name = head.name.text;
    let place = place_of(head.name);
    push_if(
        alloc,
        told.is_duplicate,
        Code::Duplicate,
        place,
        name,
        found,
    )?;
    push_if(alloc, told.has_no_base, Code::NoBase, place, name, found)?;
    push_if(
        alloc,
        told.is_unproductive,
        Code::Unproductive,
        place,
        name,
        found,
    )
}

/// Adds what is found at a block's fault, or at its items where it has none.
///
/// # Errors
///
/// Where an allocation is refused.
pub fn push_said<N: Names>(
    alloc: Global,
    names: &N,
    section: &Section<'_>,
    found: &mut List<Finding>,
) -> Result<(), AllocError>
    ensures { OnOk result (found.new ≡ found.old ++ spec.said_found (N.strange names.now) section.now.block.items section.now.fault) }
{
    match section.fault {
        Some(fault) => push_fault(alloc, fault, found),
        None => push_items(alloc, names, section.block.items.as_slice(), found),
    }
}
