//! How files went.

ghost use Rattle.std.specs.Prelude.{◌≡◌};
ghost use Rattle.std.specs.List.{list_any};
ghost use Rattle.findings_text.specs.Outcomes as spec;

use abnf_lint::Severity;
use draft_findings::Reported;

/// How a file went.
#[derive(Clone, Copy, Debug, Drop, PartialEq, Eq)]
pub enum Outcome {
    /// Nothing is found in it.
    Clean,
    /// What is found are warnings.
    Warnings,
    /// An error is found, and perhaps more.
    Errors,
    /// It can't be read, or isn't a text.
    NotRead,
}

/// Whether a finding that is reported is an error.
fn is_error(reported: &Reported<'_>) -> bool
    ensures { result ≡ spec.is_error reported.now }
{
    match reported.finding().code.severity() {
        Severity::Error => true,
        Severity::Warning => false,
    }
}

fn has_error(found: &[Reported<'_>]) -> bool
    ensures { result ≡ list_any spec.is_error found.now }
{
    found.iter().any(|reported| is_error(reported))
}

/// How a text went by what is reported of it.
pub(crate) fn outcome_of(found: &[Reported<'_>]) -> Outcome
    ensures { result ≡ spec.outcome_of found.now }
{
    match found {
        [] => Outcome::Clean,
        _ if has_error(found) => Outcome::Errors,
        _ => Outcome::Warnings,
    }
}
