//! Edits of a draft that are edits of its grammar.

ghost use Rattle.std.specs.Prelude.{◌≡◌, Bool, IfOk};
ghost use Rattle.ls_text.specs.Edits.{edited_all};
ghost use Rattle.ls_text.specs.Lines.{units};
ghost use Rattle.abnf_rename.specs.Text.{renaming_edits};
ghost use Rattle.draft_grammars.specs.Drafts.{contents_in, has_contents};
ghost use Rattle.draft_grammars.specs.Renames as spec;

use crate::format::Format;
use crate::grammar::DraftGrammar;
use crate::places::SourceMap;
use ls_lists::{List, Text};
use ls_text::{Edit, Encoding, Range, Snapshot, TextFault};
use std::alloc::{AllocError, Global};
use thiserror::Error;

/// Why a rename isn't granted in a draft.
#[derive(Clone, Copy, Debug, Drop, PartialEq, Eq, Error)]
pub enum DraftRenameFault {
    /// The draft has a fault, so what stands behind that isn't known.
    #[error("the draft's XML is at fault")]
    AtFault,
    /// The draft or its grammar would have more than 4,194,304 bytes on the way.
    #[error("text too large")]
    TooLarge,
    /// The draft wouldn't have the grammar with the new text: say, the name begins in a CDATA section and ends behind it.
    #[error("name split by markup")]
    Split,
}

// The edits that put a text in the place of ranges, from the last to the first.
fn edits_of(alloc: Global, ranges: &[Range], new: &Text) -> Result<Vec<Edit>, AllocError>
    ensures { IfOk result (λ edits. edits.items ≡ renaming_edits new.now ranges.now) }
{
    let mut edits: Vec<Edit> = Vec::new(alloc);
    let mut at = ranges.len();
    'making: while at > 0 {
        at -= 1;
        let text = new.copy()?;
        edits.push(Edit {
            range: Some(ranges[at]),
            text,
        })?;
    }
    Ok(edits)
}

// The text after edits, unless it is too large on the way.
pub fn edited(
    text: &Snapshot,
    edits: &[Edit],
    encoding: Encoding,
) -> Result<Option<Snapshot>, AllocError>
    ensures { IfOk result (λ edited. edited ≡ edited_all (units encoding) text.now edits.now) }
{
    match text.apply(edits, encoding) {
        Ok(edited) => Ok(Some(edited)),
        Err(TextFault::TooLarge) => Ok(None),
        Err(TextFault::Memory) => Err(AllocError),
    }
}

// A text with a new one in the place of ranges.
pub fn written(
    alloc: Global,
    text: &Snapshot,
    encoding: Encoding,
    ranges: &[Range],
    new: &Text,
) -> Result<Option<Snapshot>, AllocError>
    ensures { IfOk result (λ edited. edited ≡ spec.written encoding text.now new.now ranges.now) }
{
    let edits = edits_of(alloc, ranges, new)?;
    edited(text, edits.as_slice(), encoding)
}

// Whether the grammar of a draft has this text, and the draft a fault or none, as is said.
pub fn is_read(
    alloc: Global,
    format: Format,
    draft: &Snapshot,
    at_fault: bool,
    text: &Snapshot,
) -> Result<bool, AllocError>
    ensures { IfOk result (λ same. same ≡ has_contents at_fault (contents_in format draft.now) text.now) }
{
    let grammar = DraftGrammar::of(alloc, format, draft)?;
    if grammar.fault().is_some() != at_fault {
        return Ok(false);
    }
    Ok(grammar.text().same_text(text))
}

// Why this draft and this text of its grammar, which a rename makes, aren't granted.
fn split_fault(
    alloc: Global,
    format: Format,
    draft: Option<Snapshot>,
    text: Option<Snapshot>,
) -> Result<Option<DraftRenameFault>, AllocError>
    ensures { IfOk result (λ fault. fault ≡ spec.split_fault format draft text) }
{
    let (Some(draft), Some(text)) = (draft, text) else {
        return Ok(Some(DraftRenameFault::TooLarge));
    };
    if is_read(alloc, format, &draft, false, &text)? {
        Ok(None)
    } else {
        Ok(Some(DraftRenameFault::Split))
    }
}

/// The ranges of a draft from which these ranges of its grammar come, if the draft has the grammar with the new text where that is written
/// in the place of all of them; or why it isn't granted.
///
/// # Errors
///
/// Where an allocation is refused.
pub fn renamed_ranges(
    alloc: Global,
    format: Format,
    places: &SourceMap<'_>,
    ranges: List<Range>,
    new: &Text,
) -> Result<Result<List<Range>, DraftRenameFault>, AllocError>
    ensures { IfOk result (λ granted. granted ≡ spec.renamed_in format places.now ranges new.now) }
{
    if places.fault().is_some() {
        return Ok(Err(DraftRenameFault::AtFault));
    }
    let mut outer = ranges.copy()?.into_vec();
    places.carry_ranges(&mut outer);
    let draft = written(alloc, places.draft(), places.encoding(), &outer, new)?;
    let text = places.grammar().text();
    let text = written(alloc, text, Encoding::Utf32, ranges.as_slice(), new)?;
    match split_fault(alloc, format, draft, text)? {
        Some(fault) => Ok(Err(fault)),
        None => Ok(Ok(List::from_vec(outer))),
    }
}
