//! Entries by sweeps over the rules, at most 16: the grammars of standards in `examples/` and `bench/` take two to seven. Names can be put so
//! that each sweep settles one rule alone, and then the queue is asked.
//!
//! A sweep gives each part the entry that the table gives it, in each rule the parts below before those above. A sweep goes backwards, the
//! next one forwards: most grammars define a name further down than they use it, so that the first sweep gives nearly all parts their
//! entry. Later ones pass over each rule that uses none which has changed since. Once a sweep changes no root, the table is a certificate.
//! Nothing of that is claimed: what sweeps come to is a guess, and the check of certificates says whether it is right.

ghost use Rattle.std.specs.Prelude.{IfOk, ◌<◌, ◌≤◌, length};
ghost use Rattle.abnf_parts.specs.Part.{parts_of};
ghost use Rattle.abnf_least.specs.Table.{IsUpTo};
ghost use Rattle.abnf_least.specs.own.Sweeps.{AreSweepsOf};

use crate::given::entry_given;
use abnf_cert::Entry;
use abnf_cert::entries::entry_of;
use abnf_names::Grammar;
use abnf_parts::{Node, RuleNo};
use std::alloc::{AllocError, Global};

/// How often all rules are swept both ways before that is given up.
const ROUNDS: usize = 8;

/// When a rule was swept last, and when its root last got another entry. A time is the number of rules that were swept by then; 0 is
/// never.
#[derive(Clone, Copy)]
struct Times {
    swept: u32,
    changed: u32,
}

const NEVER: Times = Times {
    swept: 0,
    changed: 0,
};

/// How far sweeps have come: the entry of each part, and the times of each rule.
#[derive(Drop)]
pub(crate) struct Sweeps {
    table: Vec<Entry>,
    times: Vec<Times>,
    now: u32,
}

/// An entry, but for one of the greatest height: no guess has it.
fn guessed(entry: Entry) -> Entry
    ensures { IsUpTo 18446744073709551614 result }
{
    match entry {
        Entry::Least {
            height: u64::MAX,
            ..
        } => Entry::Nothing,
        _ => entry,
    }
}

impl Sweeps {
    /// No rule is swept.
    fn none_of(alloc: Global, grammar: &Grammar) -> Result<Sweeps, AllocError>
        ensures { IfOk result (AreSweepsOf grammar.now.rules) }
    {
        Ok(Sweeps {
            table: vec![in alloc; Entry::Nothing; grammar.nodes().len()]?,
            times: vec![in alloc; NEVER; grammar.rule_count()]?,
            now: 0,
        })
    }

    /// Whether a node refers to a rule that has changed since this time.
    fn has_changed(&self, node: &Node, since: u32) -> bool {
        match node {
            Node::Ref {
                rule: Some(rule),
                ..
            } => match self.times.get(rule.get()) {
                Some(times) => times.changed >= since,
                None => false,
            },
            _ => false,
        }
    }

    /// Whether a rule is to be swept: it never was, or uses a rule that has changed since.
    fn is_due(&self, grammar: &Grammar, rule: RuleNo) -> bool
        requires rule { rule < length grammar.now.rules }
        requires sweeps { AreSweepsOf grammar.now.rules self.now }
    {
        let since = self.times[rule.get()].swept;
        let (start, end) = grammar.range_of(rule);
        since == 0
            || grammar.nodes()[start..end]
                .iter()
                .any(|node| self.has_changed(node, since))
    }

    /// Gives these parts their entries, the last one first.
    fn sweep_parts(&mut self, grammar: &Grammar, start: usize, end: usize)
        requires within { end ≤ length (parts_of grammar.now.rules) }
        requires sweeps { AreSweepsOf grammar.now.rules self.old }
        ensures { AreSweepsOf grammar.now.rules self.new }
    {
        let nodes = grammar.nodes();
        let mut at = end;
        while at > start {
            at -= 1;
            self.table[at] = guessed(entry_given(grammar, &self.table, &nodes[at]));
        }
    }

    /// Gives the parts of a rule their entries. Says whether the root's is another one than before.
    fn sweep_rule(&mut self, grammar: &Grammar, rule: RuleNo) -> bool
        requires rule { rule < length grammar.now.rules }
        requires sweeps { AreSweepsOf grammar.now.rules self.old }
        ensures { AreSweepsOf grammar.now.rules self.new }
    {
        let (start, end) = grammar.range_of(rule);
        let before = entry_of(&self.table, start);
        self.sweep_parts(grammar, start, end);
        self.now = self.now.saturating_add(1);
        let changes = entry_of(&self.table, start) != before;
        let times = &mut self.times[rule.get()];
        times.swept = self.now;
        if changes {
            times.changed = self.now;
        }
        changes
    }

    /// Sweeps each rule that is due, backwards or forwards. Says whether a root has another entry than before.
    fn sweep(&mut self, grammar: &Grammar, backwards: bool) -> bool
        requires { AreSweepsOf grammar.now.rules self.old }
        ensures { AreSweepsOf grammar.now.rules self.new }
    {
        let count = grammar.rule_count();
        let mut any = false;
        for passed in 0..count {
            let number = if backwards {
                count - 1 - passed
            } else {
                passed
            };
            let rule = RuleNo::new(number);
            if self.is_due(grammar, rule) && self.sweep_rule(grammar, rule) {
                any = true;
            }
        }
        any
    }
}

/// Entries that may be those of a certificate. There are none where some rounds didn't suffice.
///
/// # Errors
///
/// Where an allocation is refused.
pub(crate) fn swept_entries(
    alloc: Global,
    grammar: &Grammar,
) -> Result<Option<Vec<Entry>>, AllocError> {
    let mut sweeps = Sweeps::none_of(alloc, grammar)?;
    for _round in 0..ROUNDS {
        if !sweeps.sweep(grammar, true) || !sweeps.sweep(grammar, false) {
            return Ok(Some(sweeps.table));
        }
    }
    Ok(None)
}
