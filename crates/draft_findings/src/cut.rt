//! The findings that are reported.

ghost use Rattle.std.specs.Prelude.{◌≡◌, ◌++◌, ◌∷◌, [], false, IfOk, OnOk, count_by, find, map};
ghost use Rattle.std.specs.List.{prefix_len};
ghost use Rattle.std.specs.Option.{option_map, option_map_or};
ghost use Rattle.draft_findings.specs.Copies as copies;
ghost use Rattle.draft_findings.specs.Ends as ends;
ghost use Rattle.draft_findings.specs.Reports as spec;

use crate::ends::block_ends;
use crate::report::{Remark, Reported};
use abnf_lint::{Code, Finding};
use joined_grammars::{Repeat, Repeats};
use ls_lists::List;
use ls_text::Snapshot;
use origins::Gathered;
use std::alloc::{AllocError as Memory, Global};

/// How many faults of syntax of a block are reported one by one.
const MOST_FAULTS: usize = 10;

/// The definition of a finding that says that its name is defined before, where it repeats one.
fn repeat_of(repeats: &Repeats, finding: &Finding) -> Option<Repeat>
    ensures { result ≡ copies.repeat_in_draft repeats.now finding.now }
{
    match finding.code {
        Code::Duplicate => repeats.at(finding.place.line),
        _ => None,
    }
}

/// Whether a definition says the same as the first, if one is repeated.
fn is_copy(repeat: Option<Repeat>) -> bool
    ensures { result ≡ option_map_or (λ r. r.is_same) repeat false }
{
    match repeat {
        Some(repeat) => repeat.is_same,
        None => false,
    }
}

/// What is said of a definition, which may repeat the first.
fn remark_of(repeat: Option<Repeat>) -> Remark
    ensures { result ≡ spec.remark_of (option_map (λ r. r.original) repeat) }
{
    match repeat {
        Some(repeat) => Remark::Differs(repeat.original),
        None => Remark::Plain,
    }
}

/// Adds a finding with its remark, unless it is of a copy.
fn push_remarked<'f>(
    kept: &mut List<Reported<'f>>,
    repeats: &Repeats,
    finding: &'f Finding,
) -> Result<(), Memory>
    ensures { OnOk result (kept.new ≡ kept.old ++ map (spec.remarked repeats.now) (copies.without_copies repeats.now (finding.entry.now ∷ []))) }
{
    let repeat = repeat_of(repeats, finding);
    if is_copy(repeat) {
        return Ok(());
    }
    kept.push(Reported::of(finding, remark_of(repeat)))
}

/// The findings but for those of copies, each with its remark.
fn remarked<'f>(
    alloc: Global,
    found: &'f [Finding],
    repeats: &Repeats,
) -> Result<List<Reported<'f>>, Memory>
    ensures { IfOk result (λ kept. kept ≡ map (spec.remarked repeats.now) (copies.without_copies repeats.now found.entry.now)) }
{
    let mut kept = List::new(alloc);
    for finding in found {
        push_remarked(&mut kept, repeats, finding)?;
    }
    Ok(kept)
}

/// How many faults of syntax there are.
fn fault_count(block: &[Reported<'_>]) -> usize
    ensures { result ≡ count_by spec.is_fault block.now }
{
    block.iter().filter(|reported| reported.is_fault()).count()
}

/// Adds the first fault of syntax, for so many.
fn push_first<'f>(
    kept: &mut List<Reported<'f>>,
    block: &[Reported<'f>],
    count: usize,
) -> Result<(), Memory>
    ensures { OnOk result (kept.new ≡ kept.old ++ spec.alone count (find spec.is_fault block.now)) }
{
    for reported in block {
        if reported.is_fault() {
            kept.push(reported.with(Remark::FirstOf(count)))?;
            return Ok(());
        }
    }
    Ok(())
}

/// Adds all of these.
fn push_all<'f>(kept: &mut List<Reported<'f>>, block: &[Reported<'f>]) -> Result<(), Memory>
    ensures { OnOk result (kept.new ≡ kept.old ++ block.now) }
{
    for reported in block {
        kept.push(reported.with(reported.remark()))?;
    }
    Ok(())
}

/// Adds what is reported of a block.
fn push_block<'f>(kept: &mut List<Reported<'f>>, block: &[Reported<'f>]) -> Result<(), Memory>
    ensures { OnOk result (kept.new ≡ kept.old ++ spec.of_block block.now) }
{
    let count = fault_count(block);
    if count > MOST_FAULTS {
        push_first(kept, block, count)
    } else {
        push_all(kept, block)
    }
}

/// How many at the front stand in front of a line.
fn block_len(rest: &[Reported<'_>], end: usize) -> usize
    ensures { result ≡ prefix_len (spec.is_in_front end) rest.now }
{
    rest.iter()
        .take_while(|reported| reported.is_before(end))
        .count()
}

/// What is reported of findings in blocks that end at these lines.
fn cut<'f>(
    alloc: Global,
    all: &[Reported<'f>],
    ends: &[usize],
) -> Result<List<Reported<'f>>, Memory>
    ensures { IfOk result (λ kept. kept ≡ spec.cut_at ends.now all.now) }
{
    let mut kept = List::new(alloc);
    let mut at = 0usize;
    for end in ends {
        let len = block_len(&all[at..], *end);
        push_block(&mut kept, &all[at..at + len])?;
        at += len;
    }
    push_all(&mut kept, &all[at..])?;
    Ok(kept)
}

/// What is reported in a draft of the findings in its grammar's text: none of a definition that says the same as the first
/// of its name, and of a block that has more than ten faults of syntax the first of these alone. The definitions that
/// repeat others are those of the grammar's text. Of each block `ends` has the first line behind it, counted from 0. Of a
/// text that is no draft there are neither.
///
/// Time goes by the findings, for each of which the repeated definitions are halved, and by the ends.
///
/// # Errors
///
/// Where an allocation is refused.
pub fn reported<'f>(
    alloc: Global,
    found: &'f [Finding],
    repeats: &Repeats,
    ends: &[usize],
) -> Result<List<Reported<'f>>, Memory>
    ensures { IfOk result (λ kept. kept ≡ spec.reported repeats.now ends.now found.entry.now) }
{
    let all = remarked(alloc, found, repeats)?;
    cut(alloc, all.as_slice(), ends)
}

/// The same of a draft and what is gathered of it: its blocks end at [`block_ends`], which are sought only where there are
/// more than ten faults of syntax.
///
/// # Errors
///
/// Where an allocation is refused.
pub fn reported_in_draft<'f>(
    alloc: Global,
    found: &'f [Finding],
    repeats: &Repeats,
    draft: &Snapshot,
    grammar: &Gathered,
) -> Result<List<Reported<'f>>, Memory>
    ensures { IfOk result (λ kept. kept ≡ spec.reported repeats.now (ends.block_ends draft.now grammar.now) found.entry.now) }
{
    let all = remarked(alloc, found, repeats)?;
    if fault_count(all.as_slice()) <= MOST_FAULTS {
        return Ok(all);
    }
    let ends = block_ends(alloc, draft, grammar)?;
    cut(alloc, all.as_slice(), ends.as_slice())
}
