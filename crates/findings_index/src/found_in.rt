//! What is found in blocks by what is told of them.

ghost use Rattle.std.specs.Prelude.{◌≡◌, ◌++◌, Bool, List, [], IfOk, OnOk};
ghost use Rattle.std.specs.Option.{option_map_or};
ghost use Rattle.abnf_syntax.specs.Heads.{head_of};
ghost use Rattle.abnf_parts.specs.Names.{Name, folded_text};
ghost use Rattle.abnf_digests.specs.Digests.{Digest};
ghost use Rattle.findings_index.specs.ByTable.{AreDefinedMarks, AreFlagged, all_told, name_mark, strange_by, told_of_flags};
ghost use Rattle.findings_index.specs.Found.{AllAreTold, found_at_head, found_by};
ghost use Rattle.findings_index.specs.Marked.{AreHoldingMarks, AreLeadingMarks};
ghost use Rattle.findings_index.specs.ToldOfBlock.{head_told};

use crate::evaluate::is_marked;
use crate::table::NameTable;
use abnf_lint::{Finding, HeadTold, Names, push_head, push_said};
use abnf_names::Section;
use abnf_parts::is_core_name;
use abnf_syntax::Block;
use abnf_token::Folded;
use ls_lists::List;
use std::alloc::{AllocError, Global};

/// What is told of a block by the other blocks: the role of its head, and whether the head's name is idle, so that it neither holds nor
/// leads to something opaque.
#[derive(Clone, Copy)]
pub struct BlockTold {
    /// The head defines a name that an earlier block defines with `=` too.
    pub is_duplicate: bool,
    /// The head adds to a name that no earlier block defines with `=`.
    pub has_no_base: bool,
    /// No earlier block has a head with the name.
    pub is_first: bool,
    /// The head's name is idle. This matters at the first head of a name alone.
    pub is_idle: bool,
}

/// Whether a name is marked at its number; one that isn't in the table isn't.
fn has_mark(names: &NameTable, marks: &[bool], name: Folded<'_>) -> Result<bool, AllocError>
    ensures { IfOk result (λ mark. mark ≡ name_mark names.now marks.now (folded_text name.entry)) }
{
    match names.find(name)? {
        Some(number) => Ok(is_marked(marks, number)),
        None => Ok(false),
    }
}

/// Names in a table, where it is marked beside each whether a block defines it. A name is strange where it isn't marked and no core rule
/// has it.
#[derive(Clone, Copy)]
struct Defined<'d> {
    names: &'d NameTable,
    marks: &'d [bool],
}

impl Names for Defined<'_> {
    ghost strange = { λ defined. strange_by defined.names.now defined.marks.now };

    fn is_strange(&self, name: Folded<'_>) -> Result<bool, AllocError> {
        if has_mark(self.names, self.marks, name)? {
            return Ok(false);
        }
        Ok(!is_core_name(name))
    }
}

/// What is known of a block's head, by what is told of the block.
fn told_of_head(told: BlockTold) -> HeadTold
    ensures { (strange : Name → Bool) → result ≡ head_told (told_of_flags told strange) }
{
    HeadTold {
        is_duplicate: told.is_duplicate,
        has_no_base: told.has_no_base,
        is_unproductive: told.is_first & told.is_idle,
    }
}

/// Adds what is found at a block's head, if it has one.
fn push_at_head(
    alloc: Global,
    told: BlockTold,
    block: &Block<'_>,
    found: &mut List<Finding>,
) -> Result<(), AllocError>
    ensures { (strange : Name → Bool) → OnOk result (found.new ≡ found.old ++ option_map_or (found_at_head (told_of_flags told strange)) (head_of block.now.items) []) }
{
    match block.head() {
        Some(head) => push_head(alloc, told_of_head(told), head, found),
        None => Ok(()),
    }
}

/// Adds what is found in a block: at its head, and then its fault, or what is found at its items. Beside the number of each name stands
/// whether a block defines it.
///
/// # Errors
///
/// Where an allocation is refused. What was found before stays.
pub(crate) fn push_found(
    alloc: Global,
    names: &NameTable,
    defined: &[bool],
    told: BlockTold,
    section: &Section<'_>,
    found: &mut List<Finding>,
) -> Result<(), AllocError>
    ensures { OnOk result (found.new ≡ found.old ++ found_by (told_of_flags told (strange_by names.now defined.now)) section.now.block.items section.now.fault) }
{
    let names = Defined {
        names,
        marks: defined,
    };
    push_at_head(alloc, told, &section.block, found)?;
    push_said(alloc, &names, section, found)
}

/// Flags by marks of names that are sound and closed tell of each block what is to be told of it.
pub fn flags_tell_of_blocks()
    ensures { (digests : List Digest) (held led : Name → Bool) (table : List Name) (defined : List Bool) (tolds : List BlockTold) →
        AreHoldingMarks digests held → AreLeadingMarks digests led → AreDefinedMarks digests table defined → AreFlagged digests held led tolds →
        AllAreTold digests [] digests (all_told (strange_by table defined) tolds) }
{}
