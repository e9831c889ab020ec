//! The line of a finding.

ghost use Rattle.std.specs.Prelude.{◌≡◌, ◌++◌, IfOk, OnOk, map, string_bytes};
ghost use Rattle.draft_findings.specs.Words.{addition};
ghost use Rattle.findings_text.specs.Hints.{message};
ghost use Rattle.findings_text.specs.Print.{code_at, counted_text, line_of_finding, message_at, place_text, severity_text};

use crate::hints::message;
use crate::source::Standing;
use abnf_lint::{Finding, Severity};
use draft_findings::{Reported, differing, push_addition};
use ls_text::Position;
use std::alloc::{AllocError as Memory, Global};

/// How grave a finding is, in a word.
fn severity_text(severity: Severity) -> &'static str
    ensures { result.now ≡ severity_text severity }
{
    match severity {
        Severity::Error => "error",
        Severity::Warning => "warning",
    }
}

/// What is counted from 0, printed from 1 behind a colon.
fn counted_text(alloc: Global, before: u32) -> Result<String, Memory>
    ensures { IfOk result (λ text. string_bytes text ≡ counted_text before) }
{
    let number = u64::from(before) + 1;
    format!(in alloc; ":{number}")
}

/// The line and the column of a position, both printed from 1, each behind a colon, and then a colon and a blank.
///
/// # Errors
///
/// Where an allocation is refused.
pub fn place_text(alloc: Global, at: Position) -> Result<String, Memory>
    ensures { IfOk result (λ text. string_bytes text ≡ place_text at) }
{
    let mut text = counted_text(alloc, at.line)?;
    let column = counted_text(alloc, at.character)?;
    text.push_str(column.as_str())?;
    text.push_str(": ")?;
    Ok(text)
}

/// The message of a finding, a hint behind it, and then what else is said of it.
fn hinted(
    alloc: Global,
    known: &[&str],
    hint: &str,
    reported: &Reported<'_>,
) -> Result<String, Memory>
    ensures { IfOk result (λ text. string_bytes text ≡ message (map (λ name. name.now) known.now) reported.now.finding ++ hint.now ++ addition reported.now.remark) }
{
    let mut text = message(alloc, known, reported.finding())?;
    text.push_str(hint)?;
    push_addition(&mut text, alloc, reported.remark())?;
    Ok(text)
}

/// What is said of a finding that stands there.
fn message_at(
    alloc: Global,
    known: &[&str],
    at: Standing,
    reported: &Reported<'_>,
) -> Result<String, Memory>
    ensures { IfOk result (λ text. string_bytes text ≡ message_at (map (λ name. name.now) known.now) at.original at.hint.now reported.now) }
{
    match at.original {
        Some(line) => differing(alloc, reported.finding().name.as_str(), line),
        None => hinted(alloc, known, at.hint, reported),
    }
}

/// The code that is printed of a finding.
fn code_at(original: Option<u32>, finding: &Finding) -> &'static str
    ensures { result.now ≡ code_at original finding.now }
{
    match original {
        Some(_) => "differs",
        None => finding.code.text(),
    }
}

/// Appends the line of a finding that is reported of a file with this name, which stands there. Its name is compared with these, where it stands for nothing.
pub(crate) fn push_line(
    lines: &mut String,
    alloc: Global,
    file: &str,
    at: Standing,
    known: &[&str],
    reported: &Reported<'_>,
) -> Result<(), Memory>
    ensures { OnOk result (string_bytes lines.new ≡ string_bytes lines.old ++ line_of_finding (map (λ name. name.now) known.now) file.now at.begin at.original at.hint.now reported.now) }
{
    let place = place_text(alloc, at.begin)?;
    let finding = reported.finding();
    let message = message_at(alloc, known, at, reported)?;
    lines.push_str(file)?;
    lines.push_str(place.as_str())?;
    lines.push_str(severity_text(finding.code.severity()))?;
    lines.push_str(": ")?;
    lines.push_str(message.as_str())?;
    lines.push_str(" [")?;
    lines.push_str(code_at(at.original, finding))?;
    lines.push_str("]\n")?;
    Ok(())
}
