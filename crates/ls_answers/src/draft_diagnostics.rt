//! What is wrong or doubtful in a draft, as a client is told.
ghost use Rattle.std.specs.Prelude.{◌≡◌, ◌++◌, ◌∷◌, [], ℕ, IfOk, List as Listed, OnOk, map};
ghost use Rattle.std.specs.List.{list_any};
ghost use Rattle.ls_text.specs.declared.position.Encoding.TheVariants.{Utf32 as utf32};
ghost use Rattle.origins.specs.Origins.{characters};
ghost use Rattle.joined_grammars.specs.Repeats.{AreRepeats};
ghost use Rattle.joined_grammars.specs.declared.repeats.Repeat.{Repeat as Repeated};
ghost use Rattle.draft_findings.specs.Copies.{is_duplicate};
ghost use Rattle.draft_findings.specs.Reports.{reported};
ghost use Rattle.draft_grammars.specs.Places.{fault_range};
ghost use Rattle.ls_answers.specs.DraftDiagnostics as spec;

use crate::answer::{DraftCode, DraftDiagnostic};
use crate::diagnostics::diagnosed;
use abnf_lint::{Code, Finding};
use draft_findings::{Remark, Reported, differing, push_addition, reported_in_draft};
use draft_grammars::SourceMap;
use incremental_findings::Recent;
use joined_grammars::Repeats;
use ls_lists::{List, Text};
use ls_text::{Encoding, Place, Ruler, Snapshot};
use std::alloc::{AllocError as Memory, Global};
use xml_blocks::XmlFault;

/// What is found in a draft, in its order: what is reported of the findings in its grammar, and then the fault of its XML, if it has one.
///
/// As in a grammar, only a part is read where one of the texts that were diagnosed last is near to the draft's grammar. The definitions that
/// repeat others are sought only where there are such.
///
/// `Memory` says that an allocation was refused.
pub fn draft_diagnostics(
    alloc: Global,
    recent: &mut Recent,
    places: &SourceMap<'_>,
) -> Result<List<DraftDiagnostic>, Memory>
    ensures { IfOk result (λ found. spec.AreDraftDiagnostics places.now found) }
{
    let text = places.grammar().text();
    let _count = text.char_count();
    let diagnosed = diagnosed(alloc, recent.take_near(text), text)?;
    let found = all(alloc, places, diagnosed.findings());
    recent.keep(diagnosed);
    found
}

/// Whether a finding says that its name is defined before.
fn has_duplicate(found: &[Finding]) -> bool
    ensures { result ≡ list_any (λ finding. is_duplicate finding.code) found.now }
{
    found.iter().any(|finding| finding.code == Code::Duplicate)
}

/// The definitions of a text that repeat others, as far as its findings speak of them.
fn repeats_for(alloc: Global, text: &Snapshot, found: &[Finding]) -> Result<Repeats, Memory>
    ensures { IfOk result (λ repeats. (all : Listed Repeated) (ends : Listed ℕ) → AreRepeats text.now all → reported all ends found.now ≡ reported repeats ends found.now) }
{
    if has_duplicate(found) {
        Repeats::of(alloc, text)
    } else {
        Ok(Repeats::none(alloc))
    }
}

/// All that is found in a draft, by the findings of its grammar.
fn all(
    alloc: Global,
    places: &SourceMap<'_>,
    found: &[Finding],
) -> Result<List<DraftDiagnostic>, Memory>
    ensures { IfOk result (λ given. (repeats : Listed Repeated) → AreRepeats (characters places.now.grammar) repeats → given ≡ spec.draft_diagnostics places.now repeats found.now) }
{
    let grammar = places.grammar();
    let repeats = repeats_for(alloc, grammar.text(), found)?;
    let reported = reported_in_draft(alloc, found, &repeats, places.draft(), grammar.gathered())?;
    let mut given = of_grammar(alloc, places, reported.as_slice())?;
    push_fault(alloc, &mut given, places)?;
    Ok(given)
}

/// What stands of what is reported, at its places in the draft.
fn of_grammar(
    alloc: Global,
    places: &SourceMap<'_>,
    reported: &[Reported<'_>],
) -> Result<List<DraftDiagnostic>, Memory>
    ensures { IfOk result (λ given. given ≡ map (spec.draft_diagnostic places.now) (spec.standing places.now.fault reported.now)) }
{
    let mut ruler = Ruler::new(places.grammar().text(), Encoding::Utf32);
    let mut given = List::new(alloc);
    for reported in reported {
        push_standing(alloc, &mut given, &mut ruler, places, reported)?;
    }
    Ok(given)
}

/// Adds a finding, if it stands.
fn push_standing(
    alloc: Global,
    given: &mut List<DraftDiagnostic>,
    ruler: &mut Ruler<'_>,
    places: &SourceMap<'_>,
    reported: &Reported<'_>,
) -> Result<(), Memory>
    requires { ruler.old ≡ record { text = characters places.now.grammar; encoding = utf32 } }
    ensures ruler { ruler.new ≡ ruler.old }
    ensures given { OnOk result (given.new ≡ given.old ++ map (spec.draft_diagnostic places.now) (spec.standing places.now.fault (reported.now ∷ []))) }
{
    let finding = reported.finding();
    if !stands(places.fault(), finding.code) {
        return Ok(());
    }
    let message = message_of(alloc, places, finding, reported.remark())?;
    given.push(DraftDiagnostic {
        range: places.outward_range(ruler.range_of(&finding.place)),
        code: code_of(finding.code, reported.remark()),
        message,
    })
}

/// Whether a finding stands, whatever comes behind the fault of the draft, if it has one.
fn stands(fault: Option<XmlFault>, code: Code) -> bool
    ensures { result ≡ spec.stands fault code }
{
    fault.is_none() || !matches!(code, Code::Undefined | Code::Unproductive)
}

/// The code of a finding, by what is said of it in a draft.
fn code_of(code: Code, remark: Remark) -> DraftCode
    ensures { result ≡ spec.remarked_code code remark }
{
    match remark {
        Remark::Differs(_) => DraftCode::Differs,
        Remark::Plain | Remark::FirstOf(_) => DraftCode::Grammar(code),
    }
}

/// The line of the draft from which a line of its grammar comes.
fn draft_line(places: &SourceMap<'_>, line: usize) -> u32
    ensures { result ≡ spec.draft_line places.now line }
{
    let front = Place {
        line,
        start: 0,
        end: 0,
    };
    let range = places.grammar().text().range_of(&front, Encoding::Utf32);
    places.outward_range(range).start.line
}

/// The message of a finding in a draft.
fn message_of(
    alloc: Global,
    places: &SourceMap<'_>,
    finding: &Finding,
    remark: Remark,
) -> Result<Text, Memory>
    ensures { IfOk result (λ text. text ≡ spec.remarked_message places.now finding.now remark) }
{
    if let Remark::Differs(line) = remark {
        let name = finding.name.as_str();
        return Ok(Text::new(differing(alloc, name, draft_line(places, line))?));
    }
    let mut text = finding.message(alloc)?.into_string();
    push_addition(&mut text, alloc, remark)?;
    Ok(Text::new(text))
}

/// Adds the fault of the draft's XML, if it has one.
fn push_fault(
    alloc: Global,
    given: &mut List<DraftDiagnostic>,
    places: &SourceMap<'_>,
) -> Result<(), Memory>
    ensures { OnOk result (given.new ≡ given.old ++ spec.fault_diagnostics places.now.fault (fault_range places.now)) }
{
    let (Some(fault), Some(range)) = (places.fault(), places.fault_range()) else {
        return Ok(());
    };
    given.push(DraftDiagnostic {
        range,
        code: DraftCode::Xml,
        message: Text::new(String::from_str(alloc, fault.words())?),
    })
}
