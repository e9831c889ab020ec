//! The rule of the shared word, and the step that it knows.
use crate::history_entry::HistoryEntry;
use logbook::{Gain, Play, Rule};

/// The word is the length of the history, which is legal.
pub struct Law;

impl Rule<HistoryEntry, u64> for Law {
    ghost use Rattle.std.specs.Prelude.{[]};
    ghost use base.Fml.{ftrue};
    ghost use Rattle.ls_history.specs.own.Rules.{IsLogKept};

    ghost holds = { λ cells log. IsLogKept cells log };

    ghost first = { [] };

    ghost hinted = { λ n log. Unit {0} };

    ghost shows = { λ log. [] };

    ghost keeps = { λ names log. ftrue };

    ghost moves = { λ ask before after answer. Unit {0} };
}

/// Callers trade nothing.
pub struct Nothing;

impl Gain<HistoryEntry, u64> for Nothing {
    ghost use base.Fml.{ftrue};

    ghost after = { λ names about answer. ftrue };
}

/// A step that adds an entry.
pub struct Add;

impl Play<HistoryEntry, u64> for Add {
    ghost use Rattle.ls_history.specs.own.Rules.{Adds};

    ghost then = { Adds };
}
