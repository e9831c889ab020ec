//! What is printed of the grammar of a file.

ghost use Rattle.std.specs.Prelude.{◌≡◌, ◌⊎◌, IfErr, IfOk, List, Ok};
ghost use Rattle.origins.specs.Origins.{Sourced};
ghost use Rattle.findings_files.specs.Contents.{IsGrammarIn, IsNotGathered};
ghost use Rattle.findings_files.specs.Grammars as spec;
ghost use Rattle.findings_files.specs.Known.{IsGrammarPrintRefused};
ghost use Rattle.findings_files.specs.Texts.{RefusesPrint};

use crate::content::{grammar_in, is_empty, text_of};
use crate::draft::print_without;
use crate::format::Format;
use crate::xml::print_fault;
use findings_text::{Outcome, Printed};
use ls_lists::Text;
use ls_text::Snapshot;
use origins::Gathered;
use std::alloc::{AllocError as Memory, Global};
use text_files::FileFault;

/// The characters of a text, as what is printed.
fn print_text(text: &Snapshot) -> Result<Printed, Memory>
    ensures { IfOk result (λ printed. spec.IsPrintedText text.now printed) }
{
    Ok(Printed {
        lines: Text::new(text.to_text()?),
        outcome: Outcome::Clean,
    })
}

/// What is printed of the grammar that was gathered from a file of this format.
fn print_gathered_grammar(
    alloc: Global,
    file: &str,
    format: Format,
    text: &Snapshot,
    grammar: &Gathered,
) -> Result<Printed, FileFault>
    ensures printed { IfOk result (λ printed. spec.IsPrintedGrammarBy format file.now text.now (Ok grammar.now) printed) }
    ensures fault { IfErr result (RefusesPrint grammar.now) }
{
    if is_empty(grammar) {
        let outcome = format.outcome_without();
        return Ok(print_without(alloc, format, outcome, file, text, &[])?);
    }
    let text = text_of(alloc, grammar)?;
    Ok(print_text(&text)?)
}

/// What is printed of the grammar that is read of a file of this format, or of the fault of a draft in XML.
fn print_read_grammar(
    alloc: Global,
    file: &str,
    format: Format,
    text: &Snapshot,
) -> Result<Printed, FileFault>
    ensures printed { IfOk result (λ printed. spec.IsPrintedRead format file.now text.now printed) }
    ensures fault { IfErr result (λ fault. (IsNotGathered format text.now fault ⊎ (fault ≡ FileFault.Memory)) ⊎ ((grammar : List Sourced) × IsGrammarIn format text.now (Ok grammar) × RefusesPrint grammar fault)) }
{
    match grammar_in(alloc, format, text)? {
        Ok(grammar) => print_gathered_grammar(alloc, file, format, text, &grammar),
        Err(fault) => Ok(print_fault(alloc, file, text, fault)?),
    }
}

/// What is printed of the grammar in a file with this name and this format: its text, which has the same findings as the
/// file but for their places, for definitions that a draft repeats, for blocks with more than ten faults of syntax, and
/// for blocks that can't be read. Where a draft or a published text has no grammar, or is at fault, that alone is
/// reported. Time goes by the length of the file.
///
/// # Errors
///
/// `NotText` only where the grammar of a draft or a published text, or a run of lines, is larger than a text may be, and
/// `Memory` where an allocation is refused.
pub fn print_grammar_as(
    alloc: Global,
    file: &str,
    format: Format,
    text: &Snapshot,
) -> Result<Printed, FileFault>
    ensures printed { IfOk result (λ printed. spec.IsPrintedGrammarAs format file.now text.now printed) }
    ensures fault { IfErr result (IsGrammarPrintRefused format text.now) }
{
    match format {
        Format::Abnf => Ok(print_text(text)?),
        Format::Markdown | Format::Xml | Format::Text => {
            print_read_grammar(alloc, file, format, text)
        }
    }
}
