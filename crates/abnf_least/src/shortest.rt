//! What is known of the shortest strings of a rule.

ghost use Rattle.std.specs.Prelude.{◌<◌, IfOk, OnErr, length};
ghost use Rattle.abnf_cert.specs.Accepted.{IsAccepted};
ghost use Rattle.abnf_parts.specs.Reach.{ReachesOpaque};
ghost use Rattle.abnf_least.specs.Shown.{HasShortString, IsKnown, IsShown};

use crate::walk::sentence;
use abnf_cert::entries::entry_of;
use abnf_cert::{Cert, Entry};
use abnf_names::Grammar;
use abnf_parts::RuleNo;
use ls_lists::List;
use std::alloc::{AllocError, Global};

/// How many characters of an example are shown at most.
const MOST_SHOWN: u64 = 4096;

/// What is known of the shortest strings that a rule generates.
#[derive(Drop)]
pub enum Shortest {
    /// The least length, in characters and at most 4,096, and the rule's sentence, which has it: of a choice the first part that has
    /// the least pair of a length and a number of nested references, of a repetition the least count, of a range the low end, and
    /// quoted texts as they are written.
    Shown { length: u64, text: List<u32> },
    /// The least length, in characters, from 4,097 to 18446744073709551614.
    Long(u64),
    /// No string is shorter than 18446744073709551615 characters, and there is one.
    Huge,
    /// The rule generates no string.
    Nothing,
    /// The rule leads to prose or to a faulty block, so not all that it generates is known.
    NotKnown,
}

/// What is known of a rule by its certificate, prose and faulty blocks aside.
fn known(
    alloc: Global,
    grammar: &Grammar,
    entries: &[Entry],
    rule: RuleNo,
) -> Result<Shortest, AllocError>
    requires accepted { IsAccepted grammar.now.rules entries.now }
    requires rule { rule < length grammar.now.rules }
    ensures known { IfOk result (λ s. IsKnown grammar.now.rules rule s) }
    ensures memory { OnErr result (HasShortString grammar.now.rules rule) }
{
    match entry_of(entries, grammar.root_of(rule).get()) {
        Entry::Nothing => Ok(Shortest::Nothing),
        Entry::Least { length, .. } => {
            if length == u64::MAX {
                return Ok(Shortest::Huge);
            }
            if length > MOST_SHOWN {
                return Ok(Shortest::Long(length));
            }
            let text = sentence(alloc, grammar, entries, rule)?;
            Ok(Shortest::Shown { length, text })
        }
    }
}

/// What is known of the shortest strings that a rule generates, by an accepted certificate: not known exactly where it
/// leads to prose or to a faulty block; else nothing exactly where it generates no string; else the rule's sentence, the
/// least length, or that there is a string and none shorter. The rule must be one of the grammar. Where a sentence is
/// shown time goes by the number of nodes.
///
/// # Errors
///
/// Where an allocation is refused, which is asked for where there is an example to show alone.
pub fn example(
    alloc: Global,
    grammar: &Grammar,
    cert: &Cert,
    rule: RuleNo,
) -> Result<Shortest, AllocError>
    requires accepted { IsAccepted grammar.now.rules cert.now }
    requires rule { rule < length grammar.now.rules }
    ensures shown { IfOk result (λ s. IsShown grammar.now.rules rule s) }
    ensures memory { OnErr result ((ReachesOpaque grammar.now.rules rule → ⊥) × HasShortString grammar.now.rules rule) }
{
    if grammar.reaches_opaque(rule) {
        return Ok(Shortest::NotKnown);
    }
    known(alloc, grammar, cert.entries(), rule)
}
