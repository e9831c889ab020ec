//! Findings with what is said of them in a draft.

ghost use Rattle.std.specs.Prelude.{◌≡◌};
ghost use Rattle.draft_findings.specs.Reports as spec;

use abnf_lint::{Code, Finding};
use std::marker::Model;

/// What is said of a finding in a draft beside its message.
#[derive(Clone, Copy, Debug, Drop, PartialEq, Eq)]
pub enum Remark {
    /// Nothing.
    Plain,
    /// Its definition differs from the first of its name, which begins in this line of the grammar's text, counted from 0.
    Differs(usize),
    /// It is the first of so many faults of syntax in its block, for all of which it stands.
    FirstOf(usize),
}

/// A finding that is reported, and what is said of it in a draft. Contracts see both, as `Remarked` in specs/Reports.
#[derive(Drop)]
pub struct Reported<'f> {
    finding: &'f Finding,
    remark: Remark,
}

impl<'f> Model for Reported<'f> {
    ghost use Rattle.draft_findings.specs.Reports.{Remarked};

    ghost Value = { Remarked };

    ghost view = { λ r. record { finding = r.finding.now; remark = r.remark } };
}

impl<'f> Reported<'f> {
    /// A finding with this remark.
    pub(crate) fn of(finding: &'f Finding, remark: Remark) -> Reported<'f>
        ensures { result ≡ record { finding = finding.entry.now; remark = remark } }
    {
        Reported { finding, remark }
    }

    /// The finding.
    pub fn finding(&self) -> &'f Finding
        ensures { result.now ≡ self.now.finding }
    {
        self.finding
    }

    /// What is said of it beside its message.
    pub fn remark(&self) -> Remark
        ensures { result ≡ self.now.remark }
    {
        self.remark
    }

    /// The same finding, with this remark.
    pub(crate) fn with(&self, remark: Remark) -> Reported<'f>
        ensures { result ≡ record { finding = self.now.finding; remark = remark } }
    {
        Reported {
            finding: self.finding,
            remark,
        }
    }

    /// Whether it is a fault of syntax.
    pub(crate) fn is_fault(&self) -> bool
        ensures { result ≡ spec.is_fault self.now }
    {
        is_fault_of_syntax(self.finding.code)
    }

    /// Whether it stands in front of a line.
    pub(crate) fn is_before(&self, end: usize) -> bool
        ensures { result ≡ spec.is_in_front end self.now }
    {
        self.finding.place.line < end
    }
}

/// Whether a code is a fault that makes a block no rule: `syntax`, `number-too-large` or `too-deep`.
pub fn is_fault_of_syntax(code: Code) -> bool
    ensures { result ≡ spec.is_fault_of_syntax code }
{
    matches!(code, Code::Syntax(_) | Code::NumberTooLarge | Code::TooDeep)
}
