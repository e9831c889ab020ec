//! What is said of a finding.

ghost use Rattle.std.specs.Prelude.{◌≡◌, ◌++◌, IfOk, string_bytes};
ghost use Rattle.abnf_lint.specs.Messages as messages;

use crate::finding::{Code, Finding};
use abnf_syntax::SyntaxFault;
use ls_lists::Text;
use std::alloc::{AllocError, Global};

/// How grave a finding is.
#[derive(Clone, Copy, Debug, Drop, PartialEq, Eq)]
pub enum Severity {
    /// The text is no grammar as it stands.
    Error,
    /// The grammar most likely isn't what its author means.
    Warning,
}

impl Code {
    /// Whether it is an error, as all are from `syntax` to `duplicate`, or a warning, as those behind them.
    pub fn severity(self) -> Severity
        ensures { result ≡ messages.severity_of self }
    {
        match self {
            Code::Syntax(_)
            | Code::NumberTooLarge
            | Code::TooDeep
            | Code::Undefined
            | Code::Duplicate => Severity::Error,
            Code::NoBase | Code::EmptyRepeat | Code::EmptyRange | Code::Unproductive =>
                Severity::Warning,
        }
    }

    /// The code as a text, as `empty-range`; of each fault of the syntax it is `syntax`.
    pub fn text(self) -> &'static str
        ensures { result.now ≡ messages.code_text self }
    {
        match self {
            Code::Syntax(_) => "syntax",
            Code::NumberTooLarge => "number-too-large",
            Code::TooDeep => "too-deep",
            Code::Undefined => "undefined",
            Code::Duplicate => "duplicate",
            Code::NoBase => "no-base",
            Code::EmptyRepeat => "empty-repeat",
            Code::EmptyRange => "empty-range",
            Code::Unproductive => "unproductive",
        }
    }
}

/// What is said of a fault.
fn fault_text(fault: SyntaxFault) -> &'static str
    ensures { result.now ≡ messages.fault_text fault }
{
    match fault {
        SyntaxFault::NoName(_) => "rule name expected",
        SyntaxFault::NoDefinedAs(_) => "\"=\" or \"=/\" expected",
        SyntaxFault::BadToken(_) => "bad character",
        SyntaxFault::ElementExpected(_) => "element expected",
        SyntaxFault::BlankExpected(_) => "blank expected",
        SyntaxFault::Unclosed(_) => "bracket not closed",
        SyntaxFault::NumberTooLarge(_) => "number too large",
        SyntaxFault::TooDeep(_) => "brackets nested too deep",
        SyntaxFault::Memory => "out of memory",
    }
}

/// A name with what stands before it and behind it.
fn around(alloc: Global, before: &str, name: &str, behind: &str) -> Result<Text, AllocError>
    ensures { IfOk result (λ text. text ≡ before.now ++ name.now ++ behind.now) }
{
    let mut text = String::from_str(alloc, before)?;
    text.push_str(name)?;
    text.push_str(behind)?;
    Ok(Text::new(text))
}

impl Finding {
    /// The message of the finding, in one line. It names the finding's name where its code has one.
    ///
    /// # Errors
    ///
    /// Where an allocation is refused.
    pub fn message(&self, alloc: Global) -> Result<Text, AllocError>
        ensures { IfOk result (λ text. text ≡ messages.finding_message self.now.code self.now.name) }
    {
        let name = self.name.as_str();
        match self.code {
            Code::Syntax(fault) => Text::from_str(alloc, fault_text(fault)),
            Code::NumberTooLarge => Text::from_str(alloc, "number too large"),
            Code::TooDeep => Text::from_str(alloc, "brackets nested too deep"),
            Code::Undefined => around(alloc, "undefined rule ", name, ""),
            Code::Duplicate => around(alloc, "rule ", name, " is already defined"),
            Code::NoBase => around(alloc, "no earlier definition of ", name, ""),
            Code::EmptyRepeat => Text::from_str(alloc, "repeat with minimum above maximum"),
            Code::EmptyRange => Text::from_str(alloc, "range with low above high"),
            Code::Unproductive => around(alloc, "rule ", name, " generates nothing"),
        }
    }
}
