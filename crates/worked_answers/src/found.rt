//! What is found in a text, as a text.

use abnf_least::least;
use abnf_lint::{Finding, Severity, findings, findings_in};
use abnf_names::Grammar;
use ls_lists::List;
use ls_text::{Place, Snapshot};
use std::alloc::{AllocError, Global};
use std::test::Fail;

/// The number of a severity in the protocol, between blanks.
fn severity_text(severity: Severity) -> &'static str {
    match severity {
        Severity::Error => " 1 ",
        Severity::Warning => " 2 ",
    }
}

fn push_place(alloc: Global, place: Place, told: &mut String) -> Result<(), AllocError> {
    let Place { line, start, end } = place;
    let place = format!(in alloc; "{line}:{start}-{line}:{end}")?;
    told.push_str(place.as_str())
}

fn push_message(alloc: Global, finding: &Finding, told: &mut String) -> Result<(), AllocError> {
    let message = finding.message(alloc)?;
    told.push_str(message.as_str())
}

fn push_finding(alloc: Global, finding: &Finding, told: &mut String) -> Result<(), AllocError> {
    push_place(alloc, finding.place, told)?;
    told.push_str(severity_text(finding.code.severity()))?;
    told.push_str(finding.code.text())?;
    told.push_str(" ")?;
    push_message(alloc, finding, told)?;
    told.push_str("\n")
}

/// Findings, a line each.
pub(crate) fn told(alloc: Global, found: &[Finding]) -> Result<String, AllocError> {
    let mut told = String::new(alloc);
    for finding in found {
        push_finding(alloc, finding, &mut told)?;
    }
    Ok(told)
}

fn found_by_cert(alloc: Global, grammar: &Grammar<'_>) -> Result<List<Finding>, AllocError> {
    let cert = least(alloc, grammar)?;
    findings(alloc, grammar, &cert)
}

/// Whether just this is found, with a certificate and without one.
fn tells(alloc: Global, grammar: &Grammar<'_>, want: &str) -> Result<bool, AllocError> {
    let found = findings_in(alloc, grammar)?;
    let by_cert = found_by_cert(alloc, grammar)?;
    let found = told(alloc, found.as_slice())?;
    let by_cert = told(alloc, by_cert.as_slice())?;
    Ok(found.as_str() == want && by_cert.as_str() == want)
}

/// Whether just this is found in a text.
fn has_findings(alloc: Global, text: &Snapshot, want: &str) -> Result<bool, AllocError> {
    let grammar = Grammar::of(alloc, text)?;
    let tells = tells(alloc, &grammar, want);
    drop(grammar);
    tells
}

pub(crate) fn snapshot(alloc: Global, text: &str) -> Result<Snapshot, Fail> {
    let text = String::from_str(alloc, text)?;
    Ok(Snapshot::of_text(alloc, text)?)
}

/// Whether just this is found in a text.
pub(crate) fn finds(alloc: Global, text: &str, want: &str) -> Result<bool, Fail> {
    let text = snapshot(alloc, text)?;
    Ok(has_findings(alloc, &text, want)?)
}
