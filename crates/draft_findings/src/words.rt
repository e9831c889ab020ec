//! What is said of a finding in a draft.

ghost use Rattle.std.specs.Prelude.{◌≡◌, ◌++◌, IfOk, OnOk, string_bytes};
ghost use Rattle.draft_findings.specs.Words as spec;

use crate::report::Remark;
use std::alloc::{AllocError as Memory, Global};

/// What is said of a rule that differs from its definition in this line, which is counted from 0 and printed from 1.
///
/// # Errors
///
/// Where an allocation is refused.
pub fn differing(alloc: Global, name: &str, line: u32) -> Result<String, Memory>
    ensures { IfOk result (λ text. string_bytes text ≡ spec.differing name.now line) }
{
    let number = u64::from(line) + 1;
    let number = format!(in alloc; "{number}")?;
    let mut text = String::from_str(alloc, "rule ")?;
    text.push_str(name)?;
    text.push_str(" differs from its definition at line ")?;
    text.push_str(number.as_str())?;
    Ok(text)
}

/// Appends what is said of the first of so many faults.
fn push_first_of(text: &mut String, alloc: Global, count: usize) -> Result<(), Memory>
    ensures { OnOk result (string_bytes text.new ≡ string_bytes text.old ++ spec.first_of_many count) }
{
    let number = format!(in alloc; "{count}")?;
    text.push_str(" (the first of ")?;
    text.push_str(number.as_str())?;
    text.push_str(" faults in this block)")?;
    Ok(())
}

/// Appends to the message of a finding what its remark adds: ` (the first of 12 faults in this block)`, or nothing.
///
/// # Errors
///
/// Where an allocation is refused. Part of it may be there.
pub fn push_addition(text: &mut String, alloc: Global, remark: Remark) -> Result<(), Memory>
    ensures { OnOk result (string_bytes text.new ≡ string_bytes text.old ++ spec.addition remark) }
{
    match remark {
        Remark::FirstOf(count) => push_first_of(text, alloc, count),
        Remark::Plain | Remark::Differs(_) => Ok(()),
    }
}
