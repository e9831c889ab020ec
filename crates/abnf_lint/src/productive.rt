//! Which rules generate anything.

ghost use Rattle.std.specs.Prelude.{◌<◌, ◌↔◌, IfOk, IsTrue, length};
ghost use Rattle.abnf_parts.specs.Part.{parts_of};
ghost use Rattle.abnf_cert.specs.Accepted.{IsAccepted};
ghost use Rattle.abnf_lint.specs.Marks.{AreClosed, AreProductive, AreSound, IsProductive};

use crate::sweep::{is_marked, settle};
use abnf_cert::entries::entry_of;
use abnf_cert::{Cert, Entry};
use abnf_least::least;
use abnf_names::Grammar;
use abnf_parts::RuleNo;
use std::alloc::{AllocError, Global};

/// The marks of the rules' roots.
fn marks_of_roots(alloc: Global, grammar: &Grammar, marks: &[bool]) -> Result<Vec<bool>, AllocError>
    requires sound { AreSound grammar.now.rules marks.now }
    requires closed { AreClosed grammar.now.rules marks.now 0 (length (parts_of grammar.now.rules)) }
    ensures { IfOk result (λ rules. AreProductive grammar.now.rules rules.items) }
{
    let count = grammar.rule_count();
    let mut rules = Vec::with_capacity(alloc, count)?;
    for rule in 0..count {
        rules.push(is_marked(marks, grammar.root_of(RuleNo::new(rule)).get()))?;
    }
    Ok(rules)
}

/// Whether a rule generates anything, by an accepted certificate.
fn has_length(grammar: &Grammar, cert: &Cert, rule: RuleNo) -> bool
    requires accepted { IsAccepted grammar.now.rules cert.now }
    requires rule { rule < length grammar.now.rules }
    ensures { IsTrue result ↔ IsProductive grammar.now.rules rule }
{
    match entry_of(cert.entries(), grammar.root_of(rule).get()) {
        Entry::Nothing => false,
        Entry::Least { length, .. } => {
            let _bounded = length;
            true
        }
    }
}

/// The same by the least lengths of all parts.
fn by_lengths(alloc: Global, grammar: &Grammar) -> Result<Vec<bool>, AllocError>
    ensures { IfOk result (λ rules. AreProductive grammar.now.rules rules.items) }
{
    let cert = least(alloc, grammar)?;
    let count = grammar.rule_count();
    let mut rules = Vec::with_capacity(alloc, count)?;
    for rule in 0..count {
        rules.push(has_length(grammar, &cert, RuleNo::new(rule)))?;
    }
    Ok(rules)
}

/// Of each rule, by its number, whether it generates a string.
///
/// Sweeps over all parts answer it in nearly every grammar, in time in proportion to its size. Where references lead to
/// and fro so that some sweeps aren't enough, the search for least lengths answers it, in time in proportion to n times
/// the logarithm of n for n parts.
///
/// # Errors
///
/// Where an allocation is refused.
pub fn productive_rules(alloc: Global, grammar: &Grammar) -> Result<Vec<bool>, AllocError>
    ensures { IfOk result (λ rules. AreProductive grammar.now.rules rules.items) }
{
    let mut marks = vec![in alloc; false; grammar.nodes().len()]?;
    if settle(grammar, marks.as_mut_slice()) {
        marks_of_roots(alloc, grammar, marks.as_slice())
    } else {
        drop(marks);
        by_lengths(alloc, grammar)
    }
}
