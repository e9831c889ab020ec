//! What is printed of a draft or a published text, and of a file without a grammar.

ghost use Rattle.std.specs.Prelude.{◌≡◌, IfErr, IfOk, string_bytes};
ghost use Rattle.draft_findings.specs.Ends.{block_ends};
ghost use Rattle.findings_text.specs.Sources.{position_in_draft};
ghost use Rattle.findings_text.specs.Unread.{asides_of};
ghost use Rattle.findings_files.specs.Drafts as spec;
ghost use Rattle.findings_files.specs.Texts.{RefusesPrint};

use crate::content::{Content, text_of};
use crate::format::Format;
use draft_findings::block_ends;
use findings_text::{Outcome, Printed, Source, print_from, print_rules_from, print_unread};
use joined_grammars::Repeats;
use ls_lists::Text;
use ls_text::Snapshot;
use origins::{Gathered, Unread};
use std::alloc::{AllocError as Memory, Global};
use text_files::FileFault;

impl Format {
    ghost use Rattle.findings_files.specs.Drafts as spec;

    /// How a file of this format of which findings are asked went, if it has no grammar.
    pub(crate) fn outcome_without(self) -> Outcome
        ensures { result ≡ spec.outcome_without self }
    {
        match self {
            Format::Markdown | Format::Xml => Outcome::Warnings,
            Format::Abnf | Format::Text => Outcome::Errors,
        }
    }

    /// What is said of a file of this format without a grammar.
    fn no_grammar_text(self) -> &'static str
        ensures { result.now ≡ spec.no_grammar_text self }
    {
        match self {
            Format::Markdown | Format::Xml => "no grammar in this draft",
            Format::Abnf | Format::Text => "no grammar in this text",
        }
    }
}

/// The severity of a line by which a file went so.
fn severity_text(outcome: Outcome) -> &'static str
    ensures { result.now ≡ spec.outcome_severity outcome }
{
    match outcome {
        Outcome::Clean | Outcome::Warnings => "warning",
        Outcome::Errors | Outcome::NotRead => "error",
    }
}

/// The line of a file without a grammar.
fn no_grammar_line(
    alloc: Global,
    format: Format,
    outcome: Outcome,
    file: &str,
) -> Result<String, Memory>
    ensures { IfOk result (λ line. string_bytes line ≡ spec.no_grammar_line format outcome file.now) }
{
    let mut line = String::from_str(alloc, file)?;
    line.push_str(":1:1: ")?;
    line.push_str(severity_text(outcome))?;
    line.push_str(": ")?;
    line.push_str(format.no_grammar_text())?;
    line.push_str(" [no-grammar]\n")?;
    Ok(line)
}

/// What is printed of a file of this format without a grammar that went so, of which this can't be read.
pub(crate) fn print_without(
    alloc: Global,
    format: Format,
    outcome: Outcome,
    file: &str,
    draft: &Snapshot,
    unread: &[Unread],
) -> Result<Printed, Memory>
    ensures { IfOk result (λ printed. spec.IsPrintedWithout format outcome file.now draft.now unread.now printed) }
{
    let mut lines = no_grammar_line(alloc, format, outcome, file)?;
    let behind = print_unread(alloc, file, draft, unread)?;
    lines.push_str(behind.as_str())?;
    Ok(Printed {
        lines: Text::new(lines),
        outcome,
    })
}

/// What is printed of the text of a grammar that is the content of this draft.
fn print_text(
    alloc: Global,
    file: &str,
    draft: &Snapshot,
    content: &Content,
    text: &Snapshot,
) -> Result<Printed, Memory>
    ensures { IfOk result (λ printed. spec.IsPrintedRepeating (asides_of draft.now content.now.unread) (block_ends draft.now content.now.grammar) (position_in_draft draft.now content.now.grammar text.now) file.now text.now printed) }
{
    let repeats = Repeats::of(alloc, text)?;
    let ends = block_ends(alloc, draft, &content.grammar)?;
    let unread = content.unread.as_slice();
    let source = Source::Draft(draft, &content.grammar, &repeats, ends.as_slice(), unread);
    print_from(alloc, file, source, text)
}

/// What is printed of a draft or a published text in a file with this name, of which this is read: each finding in a line,
/// at the place where it begins in the file. Lines and columns count from 1, and columns count characters. A definition
/// that says the same as the first of its name is no finding, of a block with more than ten faults of syntax the first
/// alone is reported, and what can't be read is a warning.
///
/// # Errors
///
/// `NotText` where the grammar is larger than a text may be, and `Memory`.
pub(crate) fn print_draft(
    alloc: Global,
    file: &str,
    draft: &Snapshot,
    content: &Content,
) -> Result<Printed, FileFault>
    ensures printed { IfOk result (λ printed. spec.IsPrintedDraft file.now draft.now content.now.unread content.now.grammar printed) }
    ensures fault { IfErr result (RefusesPrint content.now.grammar) }
{
    let text = text_of(alloc, &content.grammar)?;
    Ok(print_text(alloc, file, draft, content, &text)?)
}

/// What is printed of the rules of a draft or a published text in a file with this name, where this is its grammar: each
/// rule that it defines in a line, at the first place of the file that does.
///
/// # Errors
///
/// As [`print_draft`].
pub(crate) fn print_draft_rules(
    alloc: Global,
    file: &str,
    draft: &Snapshot,
    grammar: &Gathered,
) -> Result<Text, FileFault>
    ensures printed { IfOk result (λ lines. spec.ArePrintedDraftRules file.now draft.now grammar.now lines) }
    ensures fault { IfErr result (RefusesPrint grammar.now) }
{
    let text = text_of(alloc, grammar)?;
    let none = Repeats::none(alloc);
    let source = Source::Draft(draft, grammar, &none, &[], &[]);
    Ok(print_rules_from(alloc, file, source, &text)?)
}
