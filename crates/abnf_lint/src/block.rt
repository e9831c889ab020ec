//! What is found in a block.

ghost use Rattle.std.specs.Prelude.{◌≡◌, ◌++◌, ◌<◌, List, Some, OnOk, IsTrue, false, length, slice_get, slice_set, slice_index_or};
ghost use Rattle.abnf_parts.specs.Names.{Name, rule_number};
ghost use Rattle.abnf_names.specs.Said.{name_of};
ghost use Rattle.abnf_names.specs.Excerpts.{excerpt};
ghost use Rattle.abnf_lint.specs.own.Findings as spec;
ghost use Rattle.abnf_lint.specs.own.Passes as passes;

use crate::finding::Finding;
use crate::sweep::is_marked;
use crate::told::{HeadTold, push_head, push_said};
use abnf_names::{Grammar, Section};
use abnf_parts::RuleNo;
use abnf_syntax::Head;
use abnf_token::Folded;
use ls_lists::List;
use std::alloc::{AllocError, Global};

/// What the blocks before say of a name.
#[derive(Clone, Copy)]
pub(crate) struct Seen {
    /// One of them has a head with it.
    pub is_head: bool,
    /// One of them defines it with `=`.
    pub is_base: bool,
}

/// The rule of a head's name, which must have one, and may be guessed.
fn rule_of_head<'t>(grammar: &Grammar<'t>, head: Head<'t>, guess: usize) -> RuleNo
    requires { IsTrue (spec.has_name grammar.now.names (name_of head)) }
    ensures { rule_number grammar.now.names (name_of head.entry) ≡ Some result }
{
    match grammar.rule_guessed(Folded(head.name.text), guess) {
        Some(rule) => rule,
        None => unreachable!(),
    }
}

/// What the blocks before say of the name of a head, which is one of theirs from now on.
fn join_heads(seen: &mut [Seen], rule: RuleNo, head: Head<'_>) -> Seen
    requires { rule < length seen.old }
    ensures before { slice_get seen.old rule ≡ Some result }
    ensures joined { seen.new ≡ slice_set seen.old rule (passes.seen_more result head.entry) }
{
    let before = seen[rule.get()];
    seen[rule.get()] = Seen {
        is_head: true,
        is_base: before.is_base | !head.adds,
    };
    before
}

/// What is known of a head by what the blocks before say of its name, where its rule may be marked.
fn told_of_head(before: Seen, is_marked: bool, head: Head<'_>) -> HeadTold
    ensures { result ≡ passes.told_of_head before is_marked head.entry }
{
    HeadTold {
        is_duplicate: !head.adds & before.is_base,
        has_no_base: head.adds & !before.is_base,
        is_unproductive: !before.is_head & is_marked,
    }
}

/// Adds what is found at a block's fault, or at its items where it has none. It may be known that there is nothing to be found at these.
fn push_unless_sound(
    alloc: Global,
    grammar: &Grammar<'_>,
    is_sound: bool,
    section: &Section<'_>,
    found: &mut List<Finding>,
) -> Result<(), AllocError>
    requires { IsTrue is_sound → passes.IsSoundBlock grammar.now.names (excerpt section.now) }
    ensures { OnOk result (found.new ≡ found.old ++ spec.said_findings grammar.now.names (excerpt section.now)) }
{
    if is_sound && section.fault.is_none() {
        return Ok(());
    }
    push_said(alloc, grammar, section, found)
}

/// A grammar, and what is known of each of its rules.
#[derive(Clone, Copy)]
pub(crate) struct Known<'g, 't> {
    pub grammar: &'g Grammar<'t>,
    /// Beside each rule whether it is unproductive.
    pub marks: &'g [bool],
    /// Beside each rule whether all its nodes are known to be sound.
    pub sound: &'g [bool],
}

/// Adds what is found in a block. Beside each rule stands what the blocks before say of its name, to which the block's head is added.
/// The rule of the head's name may be guessed by its number.
pub(crate) fn push_block<'t>(
    alloc: Global,
    known: &Known<'_, 't>,
    seen: &mut [Seen],
    guess: usize,
    section: &Section<'t>,
    found: &mut List<Finding>,
) -> Result<(), AllocError>
    requires mark { passes.HasMark known.now.grammar.now.names seen.old (excerpt section.now) }
    requires sound { passes.IsSoundIfMarked known.now.sound.now known.now.grammar.now.names seen.old (excerpt section.now) }
    ensures found { OnOk result ((heads bases : List Name) → passes.HaveSeen known.now.grammar.now.names heads bases seen.old
        → found.new ≡ found.old ++ spec.block_findings known.now.marks.now known.now.grammar.now.names heads bases (excerpt section.now)) }
    ensures seen { OnOk result ((heads bases : List Name) → passes.HaveSeen known.now.grammar.now.names heads bases seen.old
        → passes.HaveSeen known.now.grammar.now.names (passes.with_head heads (excerpt section.now)) (passes.with_base bases (excerpt section.now)) seen.new) }
{
    match section.block.head() {
        Some(head) => {
            let rule = rule_of_head(known.grammar, head, guess);
            let before = join_heads(seen, rule, head);
            let counts = head.adds | !before.is_base;
            let is_sound = is_marked(known.sound, rule.get()) & counts;
            let told = told_of_head(before, is_marked(known.marks, rule.get()), head);
            push_head(alloc, told, head, found)?;
            push_unless_sound(alloc, known.grammar, is_sound, section, found)
        }
        None => push_unless_sound(alloc, known.grammar, false, section, found),
    }
}
