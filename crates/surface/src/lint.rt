//! `abnf_lint`: findings.
ghost use Rattle.abnf_cert.specs.Accepted.{IsAccepted};

use abnf_cert::Cert;
use abnf_lint::{Code, Finding};
use abnf_names::Grammar;
use abnf_syntax::SyntaxFault;
use ls_lists::{List, Text};
use ls_text::Place;
use std::alloc::{AllocError as Memory, Global};

pub fn finding(place: Place, code: Code, name: Text) -> Finding {
    Finding { place, code, name }
}

pub fn findings(alloc: Global, grammar: &Grammar<'_>, cert: &Cert) -> Result<List<Finding>, Memory>
    requires { IsAccepted grammar.now.rules cert.now }
{
    abnf_lint::findings(alloc, grammar, cert)
}

pub fn codes(fault: SyntaxFault) -> [Code; 9] {
    [
        Code::Syntax(fault),
        Code::NumberTooLarge,
        Code::TooDeep,
        Code::Undefined,
        Code::Duplicate,
        Code::NoBase,
        Code::EmptyRepeat,
        Code::EmptyRange,
        Code::Unproductive,
    ]
}

pub fn code_number(code: Code) -> u8 {
    match code {
        Code::Syntax(_) => 1,
        Code::NumberTooLarge => 2,
        Code::TooDeep => 3,
        Code::Undefined => 4,
        Code::Duplicate => 5,
        Code::NoBase => 6,
        Code::EmptyRepeat => 7,
        Code::EmptyRange => 8,
        Code::Unproductive => 9,
    }
}
