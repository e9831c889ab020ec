//! What is found in a text without a certificate, by which of its rules generate anything.

ghost use Rattle.std.specs.Prelude.{◌≡◌, ◌<◌, ◌↔◌, IfOk, IsTrue, length};
ghost use Rattle.abnf_lint.specs.Rows.{AreRows};
ghost use Rattle.abnf_lint.specs.Unproductive.{AreUnproductive, IsUnproductive};
ghost use Rattle.abnf_lint.specs.Marks.{IsProductive};

use crate::finding::Finding;
use crate::findings_of::findings_marked;
use crate::productive::productive_rules;
use abnf_names::Grammar;
use abnf_parts::RuleNo;
use ls_lists::List;
use std::alloc::{AllocError, Global};

/// Whether a rule generates nothing and everything is known of it, by whether it generates anything.
fn is_unproductive(grammar: &Grammar, rule: RuleNo, is_productive: bool) -> bool
    requires rule { rule < length grammar.now.rules }
    requires productive { IsTrue is_productive ↔ IsProductive grammar.now.rules rule }
    ensures { IsTrue result ↔ IsUnproductive grammar.now.rules rule }
{
    !is_productive && !grammar.reaches_opaque(rule)
}

/// Of each rule whether it generates nothing and everything is known of it.
fn unproductive_rules(alloc: Global, grammar: &Grammar) -> Result<Vec<bool>, AllocError>
    ensures { IfOk result (λ marks. AreUnproductive grammar.now.rules marks.items) }
{
    let productive = productive_rules(alloc, grammar)?;
    let mut marks = Vec::with_capacity(alloc, productive.len())?;
    for r in 0..productive.len() {
        marks.push(is_unproductive(grammar, RuleNo::new(r), productive[r]))?;
    }
    Ok(marks)
}

/// What is found in a grammar's text: the rows of the table that hold of it, by line, start and row. A rule is
/// unproductive exactly where it generates no string and leads to no prose and no faulty block. No certificate is needed.
/// Time goes by [`productive_rules`](crate::productive_rules) and [`findings_marked`].
///
/// # Errors
///
/// Where an allocation is refused.
pub fn findings_in(alloc: Global, grammar: &Grammar) -> Result<List<Finding>, AllocError>
    ensures { IfOk result (λ found. AreRows grammar.now.text found) }
{
    let marks = unproductive_rules(alloc, grammar)?;
    findings_marked(alloc, grammar, marks.as_slice())
}
