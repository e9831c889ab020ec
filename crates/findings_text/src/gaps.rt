//! Rules that generate nothing as they lead to names which other grammars use and no file defines.

ghost use Rattle.std.specs.Prelude.{◌≡◌, ◌<◌, ◌≤◌, ◌++◌, ◌∷◌, [], List as Listed, IfErr, IfOk, OnOk, length, string_bytes};
ghost use Rattle.std.specs.List.{list_any};
ghost use Rattle.std.specs.Str.{chars, encode_utf8_all};
ghost use Rattle.ls_text.specs.Lines.{max_bytes};
ghost use Rattle.abnf_lint.specs.declared.finding.Finding.{Finding as Row};
ghost use Rattle.abnf_lint.specs.Rows.{AreRows};
ghost use Rattle.findings_text.specs.Gaps as spec;

use crate::hints::{fault_hint, is_undefined};
use abnf_lint::{Code, Finding, findings_in};
use abnf_names::Grammar;
use ls_lists::List;
use ls_text::{Place, Snapshot, TextFault};
use std::alloc::{AllocError as Memory, Global};
use std::marker::Model;

/// Whether a place stands in the grammar at the front of a joined text.
fn stands_in(told: &Snapshot, place: &Place) -> bool
    ensures { result ≡ spec.stands_in told.now place.now }
{
    place.line < told.line_count() - 1
}

/// Whether a finding is a rule that generates nothing.
fn is_unproductive(finding: &Finding) -> bool
    ensures { result ≡ spec.is_unproductive finding.now }
{
    match finding.code {
        Code::Unproductive => true,
        _ => false,
    }
}

/// Whether it is such a rule of the grammar at the front of a joined text.
fn is_idle(told: &Snapshot, finding: &Finding) -> bool
    ensures { result ≡ spec.is_idle_in_front told.now finding.now }
{
    is_unproductive(finding) && stands_in(told, &finding.place)
}

/// Whether there is such a rule.
fn has_idle(told: &Snapshot, found: &[Finding]) -> bool
    ensures { result ≡ list_any (spec.is_idle_in_front told.now) found.now }
{
    found.iter().any(|finding| is_idle(told, finding))
}

/// Whether a finding is a gap of a joined text.
fn is_gap(told: &Snapshot, finding: &Finding) -> bool
    ensures { result ≡ spec.is_gap told.now finding.now }
{
    is_undefined(finding) && !stands_in(told, &finding.place)
}

/// Appends what fills a finding if it is a gap.
fn push_filling(lines: &mut String, told: &Snapshot, finding: &Finding) -> Result<(), Memory>
    ensures { OnOk result (string_bytes lines.new ≡ string_bytes lines.old ++ spec.fillings told.now (finding.now ∷ [])) }
{
    if is_gap(told, finding) {
        lines.push_str(finding.name.as_str())?;
        lines.push_str(" = <>\n")?;
    }
    Ok(())
}

/// What fills the gaps among these findings.
fn fillings(alloc: Global, told: &Snapshot, found: &[Finding]) -> Result<String, Memory>
    ensures { IfOk result (λ lines. string_bytes lines ≡ spec.fillings told.now found.now) }
{
    let mut lines = String::new(alloc);
    for finding in found {
        push_filling(&mut lines, told, finding)?;
    }
    Ok(lines)
}

/// What stands behind a joined text with these findings where it is filled.
fn behind(alloc: Global, told: &Snapshot, found: &[Finding]) -> Result<String, Memory>
    ensures { IfOk result (λ lines. string_bytes lines ≡ spec.gaps_behind told.now found.now) }
{
    if has_idle(told, found) {
        fillings(alloc, told, found)
    } else {
        Ok(String::new(alloc))
    }
}

/// A text with lines behind it.
fn extended(alloc: Global, text: &Snapshot, behind: &str) -> Result<Snapshot, TextFault>
    ensures text { IfOk result (λ extended. extended ≡ text.now ++ chars behind.now) }
    ensures small { OnOk result (length (encode_utf8_all (text.now ++ chars behind.now)) ≤ max_bytes) }
    ensures too_large { IfErr result (λ fault. fault ≡ TextFault.TooLarge → max_bytes < length (encode_utf8_all (text.now ++ chars behind.now))) }
{
    let mut extended = text.to_text()?;
    extended.push_str(behind)?;
    Snapshot::of_text(alloc, extended)
}

/// Adds the line of a finding if it is a rule that generates nothing.
fn push_line(lines: &mut List<usize>, finding: &Finding) -> Result<(), Memory>
    ensures { OnOk result (lines.new ≡ lines.old ++ spec.idle_lines (finding.now ∷ [])) }
{
    if is_unproductive(finding) {
        lines.push(finding.place.line)?;
    }
    Ok(())
}

/// The lines in which rules begin that generate nothing.
fn idle_lines(alloc: Global, found: &[Finding]) -> Result<List<usize>, Memory>
    ensures { IfOk result (λ lines. lines ≡ spec.idle_lines found.now) }
{
    let mut lines = List::new(alloc);
    for finding in found {
        push_line(&mut lines, finding)?;
    }
    Ok(lines)
}

/// The lines in which rules begin that generate nothing in the filled text of a joined one. Contracts see their list.
#[derive(Drop)]
pub(crate) struct Kept {
    lines: List<usize>,
}

impl Model for Kept {
    ghost use Rattle.std.specs.Prelude.{List as Listed, ℕ};
    ghost use Rattle.std.specs.List.Sorted.{IsNonDecreasing};

    ghost Value = { Listed ℕ };

    ghost view = { λ k. k.lines };

    ghost invariant = { λ k. IsNonDecreasing k.lines };
}

impl Kept {
    ghost use Rattle.std.specs.Prelude.{nat_eq};
    ghost use Rattle.std.specs.List.{list_any};
    ghost use Rattle.abnf_lint.specs.Order.{FindingsAscend};
    ghost use Rattle.findings_text.specs.Gaps as spec;

    /// Those of findings in their order.
    fn of(alloc: Global, found: &[Finding]) -> Result<Kept, Memory>
        requires { FindingsAscend found.now }
        ensures { IfOk result (λ kept. kept ≡ spec.idle_lines found.now) }
    {
        let lines = idle_lines(alloc, found)?;
        Ok(Kept { lines })
    }

    /// Whether a line is among them. It is found by halving.
    fn has(&self, line: usize) -> bool
        ensures { result ≡ list_any (nat_eq line) self.now }
    {
        self.lines.as_slice().binary_search(&line).is_ok()
    }
}

/// The lines in which rules generate nothing in a text that has these lines behind it.
fn kept_behind(alloc: Global, text: &Snapshot, behind: &str) -> Result<Kept, TextFault>
    ensures kept { IfOk result (λ kept. (rows : Listed Row) × AreRows (text.now ++ chars behind.now) rows × (kept ≡ spec.idle_lines rows)) }
    ensures small { OnOk result (length (encode_utf8_all (text.now ++ chars behind.now)) ≤ max_bytes) }
    ensures too_large { IfErr result (λ fault. fault ≡ TextFault.TooLarge → max_bytes < length (encode_utf8_all (text.now ++ chars behind.now))) }
{
    let filled = extended(alloc, text, behind)?;
    let grammar = Grammar::of(alloc, &filled)?;
    let found = findings_in(alloc, &grammar)?;
    drop(grammar);
    Ok(Kept::of(alloc, found.as_slice())?)
}

/// The lines in which rules begin that generate nothing in the filled text of a joined one with these findings. That is made only
/// where a rule of the grammar at the front generates nothing and there are gaps.
///
/// # Errors
///
/// `TooLarge` only where the filled text is larger than a text may be, and `Memory` where an allocation is refused.
pub(crate) fn kept_in(
    alloc: Global,
    told: &Snapshot,
    text: &Snapshot,
    found: &[Finding],
) -> Result<Kept, TextFault>
    requires { AreRows text.now found.now }
    ensures kept { IfOk result (λ kept. spec.AreLinesKept told.now text.now kept) }
    ensures small { OnOk result (spec.IsFilledTooLarge told.now text.now → ⊥) }
    ensures too_large { IfErr result (λ fault. fault ≡ TextFault.TooLarge → spec.IsFilledTooLarge told.now text.now) }
{
    let _count = text.char_count();
    let behind = behind(alloc, told, found)?;
    if behind.is_empty() {
        return Ok(Kept::of(alloc, found)?);
    }
    kept_behind(alloc, text, behind.as_str())
}

/// Whether a finding is a rule that generates nothing as it leads to a gap.
fn leads_to_gap(kept: &Option<Kept>, finding: &Finding) -> bool
    ensures { result ≡ spec.leads_to_gap kept.now finding.now }
{
    match kept {
        Some(kept) => is_unproductive(finding) && !kept.has(finding.place.line),
        None => false,
    }
}

/// What is said behind the message of a finding: of a rule that leads to a gap that it does, and of a fault of syntax what may be meant.
pub(crate) fn hint_behind(kept: &Option<Kept>, text: &Snapshot, finding: &Finding) -> &'static str
    ensures { result.now ≡ spec.hint_behind kept.now text.now finding.now }
{
    if leads_to_gap(kept, finding) {
        ", as it leads to names that no file defines"
    } else {
        fault_hint(text, finding)
    }
}
