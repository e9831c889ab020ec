//! Rules that generate nothing.

ghost use Rattle.std.specs.Prelude.{◌<◌, ◌↔◌, IfOk, IsTrue, length};
ghost use Rattle.abnf_cert.specs.Accepted.{IsAccepted};
ghost use Rattle.abnf_lint.specs.Unproductive.{AreUnproductive, IsUnproductive};

use abnf_cert::entries::entry_of;
use abnf_cert::{Cert, Entry};
use abnf_names::Grammar;
use abnf_parts::RuleNo;
use std::alloc::{AllocError, Global};

/// Whether a rule generates nothing and everything is known of it, by an accepted certificate.
fn is_unproductive(grammar: &Grammar, cert: &Cert, rule: RuleNo) -> bool
    requires accepted { IsAccepted grammar.now.rules cert.now }
    requires rule { rule < length grammar.now.rules }
    ensures { IsTrue result ↔ IsUnproductive grammar.now.rules rule }
{
    if grammar.reaches_opaque(rule) {
        return false;
    }
    match entry_of(cert.entries(), grammar.root_of(rule).get()) {
        Entry::Nothing => true,
        Entry::Least { length, .. } => {
            let _bounded = length;
            false
        }
    }
}

/// Of each rule, whether it generates nothing and everything is known of it.
pub(crate) fn unproductive_rules(
    alloc: Global,
    grammar: &Grammar,
    cert: &Cert,
) -> Result<Vec<bool>, AllocError>
    requires { IsAccepted grammar.now.rules cert.now }
    ensures { IfOk result (λ marks. AreUnproductive grammar.now.rules marks.items) }
{
    let mut marks = Vec::new(alloc);
    for r in 0..grammar.rule_count() {
        let mark = is_unproductive(grammar, cert, RuleNo::new(r));
        marks.push(mark)?;
    }
    Ok(marks)
}
