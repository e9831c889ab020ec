//! The files whose names are known, and what is printed of a file by them.

ghost use Rattle.std.specs.Prelude.{◌≡◌, ◌⊎◌, ℕ, List as Listed, [], IfErr, IfOk, Ok, OnErr};
ghost use Rattle.joined_grammars.specs.Joined.{IsJoined};
ghost use Rattle.findings_text.specs.Gaps.{IsFilledTooLarge};
ghost use Rattle.findings_text.specs.Print.{IsPrinted};
ghost use Rattle.findings_text.specs.Rules.{ArePrintedRules};
ghost use Rattle.findings_text.specs.Sources.{asides_in, ends_in, located, repeats_in};
ghost use Rattle.findings_text.specs.Told.{IsPrintedIn};
ghost use Rattle.findings_text.specs.Unread.{asides_of, outcome_with, unread_lines};
ghost use Rattle.findings_files.specs.Known as spec;
ghost use Rattle.findings_files.specs.Texts.{IsTextRefused};

use crate::content::{Content, content_in, grammar_in, lacks_grammar, snapshot_of, text_of};
use crate::draft::{print_draft, print_draft_rules, print_without};
use crate::format::Format;
use crate::xml::print_fault;
use draft_findings::block_ends;
use findings_text::{
    Outcome, Printed, Source, print_findings, print_rules, print_told, print_told_rules,
    print_unread,
};
use joined_grammars::{Repeats, joined};
use ls_lists::{List, Text};
use ls_text::Snapshot;
use origins::{Gathered, Unread};
use std::alloc::{AllocError as Memory, Global};
use std::marker::Model;
use text_files::FileFault;

/// The files whose names are known. Contracts see the texts of their grammars, in the order in which they came.
#[derive(Drop)]
pub struct Known {
    grammars: List<Snapshot>,
}

impl Model for Known {
    ghost use Rattle.std.specs.Prelude.{List as Listed, ℕ};

    ghost Value = { Listed (Listed ℕ) };

    ghost view = { λ k. k.grammars };
}

impl Known {
    ghost use Rattle.findings_files.specs.Known as spec;

    /// No files. It takes no memory.
    pub fn new(alloc: Global) -> Known
        ensures { result ≡ [] }
    {
        Known {
            grammars: List::new(alloc),
        }
    }

    /// Adds the grammar of a file with this name and this format, left aligned, behind those that are known. What is
    /// printed of the file itself are warnings: that it has no grammar, and of each block of it that can't be read or that
    /// nothing marks. Time goes by the length of the file, in bytes.
    ///
    /// # Errors
    ///
    /// `NotText` only where the file is a draft in XML that is at fault, or its grammar, a block that nothing marks or a
    /// run of lines is larger than a text may be, and `Memory` where an allocation is refused. Then no file is added.
    pub fn add(
        &mut self,
        alloc: Global,
        file: &str,
        format: Format,
        text: &Snapshot,
    ) -> Result<Printed, FileFault>
        ensures added { IfOk result (spec.IsAdded format file.now text.now self.old self.new) }
        ensures fault { IfErr result (spec.IsNotAdded format text.now) }
        ensures same { OnErr result (self.new ≡ self.old) }
    {
        let Ok(content) = content_in(alloc, format, text)? else {
            return Err(FileFault::NotText);
        };
        let printed = print_source(alloc, file, format, text, &content)?;
        let text = text_of(alloc, &content.grammar)?;
        self.grammars.push(text)?;
        Ok(printed)
    }

    /// The texts of the grammars.
    fn as_slice(&self) -> &[Snapshot]
        ensures { result.now ≡ self.now }
    {
        self.grammars.as_slice()
    }
}

/// How a file went by what can't be read in it.
fn outcome_of(unread: &[Unread]) -> Outcome
    ensures { result ≡ outcome_with unread.now [] }
{
    match unread {
        [] => Outcome::Clean,
        _ => Outcome::Warnings,
    }
}

/// What is printed of a file whose names are known, of which this is read.
fn print_source(
    alloc: Global,
    file: &str,
    format: Format,
    text: &Snapshot,
    content: &Content,
) -> Result<Printed, Memory>
    ensures { IfOk result (spec.IsPrintedSource format file.now text.now (Ok content.now)) }
{
    let unread = content.unread.as_slice();
    if lacks_grammar(alloc, format, text, &content.grammar)? {
        return print_without(alloc, format, Outcome::Warnings, file, text, unread);
    }
    Ok(Printed {
        lines: Text::new(print_unread(alloc, file, text, unread)?),
        outcome: outcome_of(unread),
    })
}

/// The text of a grammar with others joined to it.
fn joined_text(alloc: Global, told: &Snapshot, others: &[Snapshot]) -> Result<Snapshot, FileFault>
    ensures text { IfOk result (λ text. IsJoined told.now others.now text) }
    ensures fault { IfErr result (λ fault. (fault ≡ FileFault.Memory) ⊎ ((text : Listed ℕ) × IsJoined told.now others.now text × IsTextRefused text fault)) }
{
    snapshot_of(alloc, joined(alloc, told, others)?)
}

/// The definitions of a text that may be repeated, by the format of the file that it begins with.
fn repeats_as(alloc: Global, format: Format, text: &Snapshot) -> Result<Repeats, Memory>
    ensures repeats { IfOk result (λ repeats. spec.AreRepeatsAs format text.now repeats) }
{
    match format {
        Format::Abnf => Ok(Repeats::none(alloc)),
        Format::Markdown | Format::Xml | Format::Text => Repeats::of(alloc, text),
    }
}

/// The lines of a grammar's text at which the blocks of its file end, by the format of the file.
fn ends_as(
    alloc: Global,
    format: Format,
    draft: &Snapshot,
    grammar: &Gathered,
) -> Result<List<usize>, Memory>
    ensures ends { IfOk result (λ ends. ends ≡ spec.ends_as format draft.now grammar.now) }
{
    match format {
        Format::Abnf => Ok(List::new(alloc)),
        Format::Markdown | Format::Xml | Format::Text => block_ends(alloc, draft, grammar),
    }
}

/// The findings of a grammar at the front of a text, where too large a text is refused as that of a file.
fn print_front(
    alloc: Global,
    file: &str,
    source: Source<'_>,
    told: &Snapshot,
    text: &Snapshot,
) -> Result<Printed, FileFault>
    ensures printed { IfOk result (λ printed. IsPrintedIn told.now (asides_in source.entry) (repeats_in source.entry) (ends_in source.entry) (located source.entry text.now) file.now text.now printed) }
    ensures fault { IfErr result (λ fault. (fault ≡ FileFault.Memory) ⊎ ((fault ≡ FileFault.NotText) × IsFilledTooLarge told.now text.now)) }
{
    Ok(print_told(alloc, file, source, told, text)?)
}

/// What is printed of a file of which this is read, with others joined to its grammar.
fn print_joined(
    alloc: Global,
    file: &str,
    format: Format,
    draft: &Snapshot,
    content: &Content,
    others: &[Snapshot],
) -> Result<Printed, FileFault>
    ensures printed { IfOk result (λ printed. spec.IsPrintedJoined others.now format file.now draft.now content.now.unread content.now.grammar printed) }
    ensures fault { IfErr result (λ fault. spec.IsJoinRefused others.now content.now.grammar fault ⊎ spec.IsFillingRefused others.now content.now.grammar fault) }
{
    let grammar = &content.grammar;
    let told = text_of(alloc, grammar)?;
    let text = joined_text(alloc, &told, others)?;
    let repeats = repeats_as(alloc, format, &text)?;
    let ends = ends_as(alloc, format, draft, grammar)?;
    let unread = content.unread.as_slice();
    let source = Source::Draft(draft, grammar, &repeats, ends.as_slice(), unread);
    print_front(alloc, file, source, &told, &text)
}

/// What is printed of a file with a grammar, where no other is known.
fn print_alone(
    alloc: Global,
    file: &str,
    format: Format,
    text: &Snapshot,
    content: &Content,
) -> Result<Printed, FileFault>
    ensures printed { IfOk result (λ printed. spec.IsPrintedOf [] format file.now text.now content.now printed) }
    ensures fault { IfErr result (spec.AreFindingsRefused [] format content.now.grammar) }
{
    match format {
        Format::Abnf => Ok(print_findings(alloc, file, text)?),
        Format::Markdown | Format::Xml | Format::Text => print_draft(alloc, file, text, content),
    }
}

/// What is printed of a file with a grammar, where these others are known.
fn print_of(
    alloc: Global,
    file: &str,
    format: Format,
    text: &Snapshot,
    content: &Content,
    others: &[Snapshot],
) -> Result<Printed, FileFault>
    ensures printed { IfOk result (λ printed. spec.IsPrintedOf others.now format file.now text.now content.now printed) }
    ensures fault { IfErr result (spec.AreFindingsRefused others.now format content.now.grammar) }
{
    match others {
        [] => print_alone(alloc, file, format, text, content),
        others => print_joined(alloc, file, format, text, content, others),
    }
}

/// What is printed of a file of which this is read.
fn print_content(
    alloc: Global,
    file: &str,
    format: Format,
    text: &Snapshot,
    content: &Content,
    others: &[Snapshot],
) -> Result<Printed, FileFault>
    ensures printed { IfOk result (λ printed. spec.IsPrintedContent others.now format file.now text.now content.now printed) }
    ensures fault { IfErr result (λ fault. (fault ≡ FileFault.Memory) ⊎ spec.AreFindingsRefused others.now format content.now.grammar fault) }
{
    if lacks_grammar(alloc, format, text, &content.grammar)? {
        let unread = content.unread.as_slice();
        let outcome = format.outcome_without();
        return Ok(print_without(alloc, format, outcome, file, text, unread)?);
    }
    print_of(alloc, file, format, text, content, others)
}

/// What is printed of a file with this name and this format, where the names of other files may be known: each finding in a
/// line, in the order of the file, at the place where it begins in the file. Lines and columns count from 1, and columns
/// count characters. Of a draft or a published text it goes by the grammar in its blocks. Where a file has no grammar that
/// is a warning for a draft and an error for any other, and no finding is reported. Each block that can't be read, or that
/// nothing marks, is a warning. Of a block with more than ten faults of syntax the first alone is reported. Of a draft in
/// XML that is at fault the fault alone is reported.
///
/// Rules of the other files whose names the file doesn't define are joined to its grammar, those of an earlier file
/// first; nothing is reported of them. Names that stand for nothing are compared with those of the joined grammar, the
/// file's own first, and then with the core rules. Of a rule that generates nothing it is said if it leads to a name that no
/// file defines.
///
/// Time goes by the length of the file and of all known grammars, which are joined anew for each file.
///
/// # Errors
///
/// `NotText` only where the file's grammar, the joined one, also with its gaps filled, a block that nothing marks or a run
/// of lines is larger than a text may be, and `Memory` where an allocation is refused.
pub fn print_as(
    alloc: Global,
    file: &str,
    format: Format,
    text: &Snapshot,
    known: &Known,
) -> Result<Printed, FileFault>
    ensures printed { IfOk result (λ printed. spec.IsPrintedWith known.now format file.now text.now printed) }
    ensures fault { IfErr result (spec.IsPrintRefused known.now format text.now) }
{
    match content_in(alloc, format, text)? {
        Ok(content) => print_content(alloc, file, format, text, &content, known.as_slice()),
        Err(fault) => Ok(print_fault(alloc, file, text, fault)?),
    }
}

/// The lines of the rules of a grammar that was gathered from a file, with others joined to it.
fn joined_rules(
    alloc: Global,
    file: &str,
    draft: &Snapshot,
    grammar: &Gathered,
    others: &[Snapshot],
) -> Result<Text, FileFault>
    ensures printed { IfOk result (λ lines. spec.ArePrintedJoinedRules others.now file.now draft.now grammar.now lines) }
    ensures fault { IfErr result (spec.IsJoinRefused others.now grammar.now) }
{
    let told = text_of(alloc, grammar)?;
    let text = joined_text(alloc, &told, others)?;
    let none = Repeats::none(alloc);
    let source = Source::Draft(draft, grammar, &none, &[], &[]);
    Ok(print_told_rules(alloc, file, source, &told, &text)?)
}

/// The lines of the rules of a file with this grammar, where no other is known.
fn rules_alone(
    alloc: Global,
    file: &str,
    format: Format,
    text: &Snapshot,
    grammar: &Gathered,
) -> Result<Text, FileFault>
    ensures printed { IfOk result (λ lines. spec.ArePrintedRulesOf [] format file.now text.now grammar.now lines) }
    ensures fault { IfErr result (spec.AreRulesRefused [] format grammar.now) }
{
    match format {
        Format::Abnf => Ok(print_rules(alloc, file, text)?),
        Format::Markdown | Format::Xml | Format::Text => {
            print_draft_rules(alloc, file, text, grammar)
        }
    }
}

/// The lines of the rules of a file with this grammar, where these others are known.
fn rules_of(
    alloc: Global,
    file: &str,
    format: Format,
    text: &Snapshot,
    grammar: &Gathered,
    others: &[Snapshot],
) -> Result<Text, FileFault>
    ensures printed { IfOk result (λ lines. spec.ArePrintedRulesOf others.now format file.now text.now grammar.now lines) }
    ensures fault { IfErr result (spec.AreRulesRefused others.now format grammar.now) }
{
    match others {
        [] => rules_alone(alloc, file, format, text, grammar),
        others => joined_rules(alloc, file, text, grammar, others),
    }
}

/// Lines of rules, where nothing isn't to pass.
fn clean(lines: Text) -> Printed
    ensures lines { result.lines ≡ lines }
    ensures outcome { result.outcome ≡ Outcome.Clean }
{
    Printed {
        lines,
        outcome: Outcome::Clean,
    }
}

/// What is printed of the rules in a file with this name and this format, where the names of other files may be known: each
/// rule that it defines in a line, at the first place that does. What a rule generates it generates by the joined
/// grammar. Of a draft in XML that is at fault the fault alone is reported. Each rule that has an example takes time by
/// the size of the joined grammar.
///
/// # Errors
///
/// `NotText` only where the file's grammar, the joined one or a run of lines is larger than a text may be, and `Memory`
/// where an allocation is refused.
pub fn print_rules_as(
    alloc: Global,
    file: &str,
    format: Format,
    text: &Snapshot,
    known: &Known,
) -> Result<Printed, FileFault>
    ensures printed { IfOk result (λ printed. spec.ArePrintedRulesWith known.now format file.now text.now printed) }
    ensures fault { IfErr result (spec.IsRulePrintRefused known.now format text.now) }
{
    match grammar_in(alloc, format, text)? {
        Ok(grammar) => {
            let lines = rules_of(alloc, file, format, text, &grammar, known.as_slice())?;
            Ok(clean(lines))
        }
        Err(fault) => Ok(print_fault(alloc, file, text, fault)?),
    }
}
