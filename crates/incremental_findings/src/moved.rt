//! Findings, and where they stand where a part of their text is replaced.

ghost use Rattle.std.specs.Prelude.{◌≡◌, IsTrue, map};
ghost use Rattle.abnf_digests.specs.Moved.{moved_place, moved_fault, moved_code, moved_finding};
ghost use Rattle.incremental_findings.specs.own.Moves as spec;

use crate::difference::Difference;
use abnf_lint::{Code, Finding};
use abnf_syntax::SyntaxFault;
use ls_lists::List;
use ls_text::Place;

impl Difference {
    /// Whether a line is none of the part's. It must have a number where it comes to.
    fn is_outside(&self, line: usize) -> bool
        ensures { IsTrue result → spec.IsOutside self.now line }
    {
        line < self.front || (self.old <= line && (line - self.old).checked_add(self.new).is_some())
    }

    /// The same of the place of a fault.
    fn is_fault_outside(&self, fault: SyntaxFault) -> bool
        ensures { IsTrue result → spec.IsFaultOutside self.now fault }
    {
        match fault {
            SyntaxFault::NoName(place)
            | SyntaxFault::NoDefinedAs(place)
            | SyntaxFault::BadToken(place)
            | SyntaxFault::ElementExpected(place)
            | SyntaxFault::BlankExpected(place)
            | SyntaxFault::Unclosed(place)
            | SyntaxFault::NumberTooLarge(place)
            | SyntaxFault::TooDeep(place) => self.is_outside(place.line),
            SyntaxFault::Memory => true,
        }
    }

    /// The same of the place of a code's fault.
    fn is_code_outside(&self, code: Code) -> bool
        ensures { IsTrue result → spec.IsCodeOutside self.now code }
    {
        match code {
            Code::Syntax(fault) => self.is_fault_outside(fault),
            _ => true,
        }
    }

    /// The same of the place of a finding, and of its code.
    fn is_found_outside(&self, found: &Finding) -> bool
        ensures { IsTrue result → spec.IsFoundOutside self.now found.now }
    {
        self.is_outside(found.place.line) && self.is_code_outside(found.code)
    }

    /// Whether none of these is found in the part.
    pub fn is_clean(&self, findings: &[Finding]) -> bool
        ensures { IsTrue result → spec.AreFoundOutside self.now findings.now }
    {
        findings.iter().all(|found| self.is_found_outside(found))
    }

    /// Where a place comes to.
    fn moved_place(&self, place: Place) -> Place
        requires { spec.IsOutside self.now place.line }
        ensures { result ≡ moved_place self.now.front self.now.old self.now.new place }
    {
        let line = if place.line < self.front {
            place.line
        } else {
            place.line - self.old + self.new
        };
        Place {
            line,
            start: place.start,
            end: place.end,
        }
    }

    /// A fault, where its place comes to.
    fn moved_fault(&self, fault: SyntaxFault) -> SyntaxFault
        requires { spec.IsFaultOutside self.now fault }
        ensures { result ≡ moved_fault self.now.front self.now.old self.now.new fault }
    {
        match fault {
            SyntaxFault::NoName(place) => SyntaxFault::NoName(self.moved_place(place)),
            SyntaxFault::NoDefinedAs(place) => SyntaxFault::NoDefinedAs(self.moved_place(place)),
            SyntaxFault::BadToken(place) => SyntaxFault::BadToken(self.moved_place(place)),
            SyntaxFault::ElementExpected(place) => {
                SyntaxFault::ElementExpected(self.moved_place(place))
            }
            SyntaxFault::BlankExpected(place) => SyntaxFault::BlankExpected(self.moved_place(
                place,
            )),
            SyntaxFault::Unclosed(place) => SyntaxFault::Unclosed(self.moved_place(place)),
            SyntaxFault::NumberTooLarge(place) => {
                SyntaxFault::NumberTooLarge(self.moved_place(place))
            }
            SyntaxFault::TooDeep(place) => SyntaxFault::TooDeep(self.moved_place(place)),
            SyntaxFault::Memory => SyntaxFault::Memory,
        }
    }

    /// A code, where the place of its fault comes to.
    fn moved_code(&self, code: Code) -> Code
        requires { spec.IsCodeOutside self.now code }
        ensures { result ≡ moved_code self.now.front self.now.old self.now.new code }
    {
        match code {
            Code::Syntax(fault) => Code::Syntax(self.moved_fault(fault)),
            _ => code,
        }
    }

    /// The findings, where their places come to.
    pub fn moved(&self, findings: List<Finding>) -> List<Finding>
        requires { spec.AreFoundOutside self.now findings }
        ensures { result ≡ map (moved_finding self.now.front self.now.old self.now.new) findings }
    {
        let mut findings = findings.into_vec();
        for found in findings.iter_mut() {
            found.place = self.moved_place(found.place);
            found.code = self.moved_code(found.code);
        }
        List::from_vec(findings)
    }
}
