//! What is printed of a text.

ghost use Rattle.std.specs.Prelude.{◌≡◌, ℕ, List as Listed, IfErr, IfOk, OnOk, map, string_bytes};
ghost use Rattle.draft_findings.specs.Reports.{reported};
ghost use Rattle.findings_text.specs.Gaps.{IsFilledTooLarge};
ghost use Rattle.findings_text.specs.Print.{AreFoundWith, IsPrinted, IsPrintedFrom, shown_lines};
ghost use Rattle.findings_text.specs.Sources.{asides_in, ends_in, located, repeats_in};
ghost use Rattle.findings_text.specs.Told as front;
ghost use Rattle.findings_text.specs.Unread.{outcome_with};

use crate::gaps::{Kept, kept_in};
use crate::hints::compared;
use crate::line::push_line;
use crate::outcome::Outcome;
use crate::source::{Source, reported_in, standing_of};
use crate::unread::{outcome_with, push_ahead, push_unread, unread_in};
use abnf_lint::{Finding, findings_in};
use abnf_names::Grammar;
use draft_findings::Reported;
use ls_lists::{List, Text};
use ls_text::{Encoding, Ruler, Snapshot, TextFault};
use std::alloc::{AllocError as Memory, Global};

/// What is printed of a text, and how the file went.
#[derive(Drop)]
pub struct Printed {
    /// A line for each finding, `FILE:LINE:COLUMN: severity: message [code]`, or what else is asked of the file.
    pub lines: Text,
    /// How the file went by what is found in it.
    pub outcome: Outcome,
}

/// What is found in a text, and what hints go by.
#[derive(Drop)]
struct Found<'t> {
    /// The findings.
    rows: List<Finding>,
    /// The names with which those that stand for nothing are compared.
    names: List<&'t str>,
    /// Where rules generate nothing whatever the gaps of a joined text stand for.
    kept: Option<Kept>,
}

/// The findings of a text, and the names with which those that stand for nothing are compared. Its grammar is let go here.
fn found_in<'t>(alloc: Global, text: &'t Snapshot) -> Result<Found<'t>, Memory>
    ensures found { IfOk result (λ found. AreFoundWith text.entry.now found.rows (map (λ name. name.now) found.names)) }
    ensures alone { IfOk result (λ found. found.kept ≡ None) }
{
    let grammar = Grammar::of(alloc, text)?;
    let rows = findings_in(alloc, &grammar)?;
    let names = compared(alloc, &grammar, rows.as_slice())?;
    drop(grammar);
    Ok(Found {
        rows,
        names,
        kept: None,
    })
}

/// The lines of findings that are reported, among those of what can't be read of their file.
fn lines_of(
    alloc: Global,
    file: &str,
    source: Source<'_>,
    text: &Snapshot,
    found: &Found<'_>,
    reported: &[Reported<'_>],
) -> Result<String, Memory>
    ensures { IfOk result (λ lines. string_bytes lines ≡ shown_lines (asides_in source.entry) (located source.entry text.now) found.now.kept (map (λ name. name.now) found.now.names) file.now text.now reported.now) }
{
    let mut ruler = Ruler::new(text, Encoding::Utf32);
    let mut lines = String::new(alloc);
    let mut left = unread_in(source);
    let names = found.names.as_slice();
    for one in reported {
        let at = standing_of(source, text, &mut ruler, &found.kept, one);
        left = push_ahead(&mut lines, alloc, file, source, at.begin, left)?;
        push_line(&mut lines, alloc, file, at, names, one)?;
    }
    push_unread(&mut lines, alloc, file, source, left)?;
    Ok(lines)
}

/// The lines of what is reported of findings in a grammar's text, among those of what can't be read of its file, and how the file went
/// by them.
fn print_found(
    alloc: Global,
    file: &str,
    source: Source<'_>,
    text: &Snapshot,
    found: &Found<'_>,
) -> Result<Printed, Memory>
    ensures lines { IfOk result (λ printed. printed.lines ≡ shown_lines (asides_in source.entry) (located source.entry text.now) found.now.kept (map (λ name. name.now) found.now.names) file.now text.now (reported (repeats_in source.entry) (ends_in source.entry) found.now.rows)) }
    ensures outcome { IfOk result (λ printed. printed.outcome ≡ outcome_with (asides_in source.entry).1 (reported (repeats_in source.entry) (ends_in source.entry) found.now.rows)) }
{
    let reported = reported_in(alloc, source, found.rows.as_slice())?;
    let reported = reported.as_slice();
    let lines = lines_of(alloc, file, source, text, found, reported)?;
    Ok(Printed {
        lines: Text::new(lines),
        outcome: outcome_with(unread_in(source), reported),
    })
}

/// What is printed of a grammar's text from a file with this name: each finding in a line, in the order of the text, at
/// the place where it begins in the file. Lines and columns count from 1, and columns count characters. In a draft nothing
/// is printed of a definition that says the same as the first of its name. Of a block with more than ten faults of syntax
/// the first alone is printed, and how many there are. What can't be read of a draft has a line too, a warning, before
/// those of findings that begin behind it.
///
/// Time goes by the length of the text and by its findings, of which n take n times the logarithm of n to order; in a
/// draft each takes time by the characters of its lines. A name that stands for nothing is compared with each known one,
/// but with none where there would be more than 100,000 such pairs.
///
/// # Errors
///
/// Where an allocation is refused.
pub fn print_from(
    alloc: Global,
    file: &str,
    source: Source<'_>,
    text: &Snapshot,
) -> Result<Printed, Memory>
    ensures { IfOk result (λ printed. IsPrintedFrom (asides_in source.entry) (repeats_in source.entry) (ends_in source.entry) (located source.entry text.now) file.now text.now printed) }
{
    let found = found_in(alloc, text)?;
    print_found(alloc, file, source, text, &found)
}

/// Of these findings those that stand in a grammar at the front of their text.
fn told_findings(found: List<Finding>, told: &Snapshot) -> List<Finding>
    ensures { result ≡ front.told_findings told.now found }
{
    let lines = told.line_count() - 1;
    let mut found = found.into_vec();
    found.retain(|finding| finding.place.line < lines);
    List::from_vec(found)
}

/// The findings that stand in a grammar at the front of a text, the names with which those that stand for nothing are compared, and
/// where rules generate nothing whatever the gaps stand for.
fn told_in<'t>(alloc: Global, told: &Snapshot, text: &'t Snapshot) -> Result<Found<'t>, TextFault>
    ensures found { IfOk result (λ found. (kept : Listed ℕ) × (found.kept ≡ Some kept) × front.AreToldWith told.now text.entry.now found.rows (map (λ name. name.now) found.names) kept) }
    ensures small { OnOk result (IsFilledTooLarge told.now text.entry.now → ⊥) }
    ensures too_large { IfErr result (λ fault. fault ≡ TextFault.TooLarge → IsFilledTooLarge told.now text.entry.now) }
{
    let grammar = Grammar::of(alloc, text)?;
    let all = findings_in(alloc, &grammar)?;
    let kept = kept_in(alloc, told, text, all.as_slice())?;
    let front = told_findings(all, told);
    let names = compared(alloc, &grammar, front.as_slice())?;
    drop(grammar);
    Ok(Found {
        rows: front,
        names,
        kept: Some(kept),
    })
}

/// What is printed of a file's grammar at the front of a text to which rules of others are joined: each finding that
/// stands there in a line, in the order of the text, at the place where it begins in the file. Names that stand for
/// nothing are compared with those of the whole text, and then with the core rules. Of a rule that generates nothing it is
/// said if it leads to a name behind the front that no file defines.
///
/// The front is as many lines of the text as `told`, the file's grammar, has line ends. Time goes as for [`print_from`].
/// Where a rule at the front generates nothing, and a name behind it is not defined, it goes as for two texts: such names
/// are filled in at the end of another one.
///
/// # Errors
///
/// `TooLarge` only where that other text has more than 4,194,304 bytes of UTF-8, and then nothing is printed; `Memory`
/// where an allocation is refused.
pub fn print_told(
    alloc: Global,
    file: &str,
    source: Source<'_>,
    told: &Snapshot,
    text: &Snapshot,
) -> Result<Printed, TextFault>
    ensures printed { IfOk result (λ printed. front.IsPrintedIn told.now (asides_in source.entry) (repeats_in source.entry) (ends_in source.entry) (located source.entry text.now) file.now text.now printed) }
    ensures small { OnOk result (IsFilledTooLarge told.now text.now → ⊥) }
    ensures too_large { IfErr result (λ fault. fault ≡ TextFault.TooLarge → IsFilledTooLarge told.now text.now) }
{
    let found = told_in(alloc, told, text)?;
    Ok(print_found(alloc, file, source, text, &found)?)
}

/// What is printed of a text in a file with this name: each finding in a line, in the order of the text. Lines and
/// columns count from 1, and columns count characters. Time goes as for [`print_from`].
///
/// # Errors
///
/// Where an allocation is refused.
pub fn print_findings(alloc: Global, file: &str, text: &Snapshot) -> Result<Printed, Memory>
    ensures { IfOk result (λ printed. IsPrinted file.now text.now printed) }
{
    print_from(alloc, file, Source::File, text)
}
