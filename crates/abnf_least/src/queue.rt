//! The parts that wait to be settled, the least pair of a length and a height first.

ghost use Rattle.std.specs.Prelude.{IfNone, IfSome, OnOk, ◌≡◌, []};
ghost use Rattle.abnf_least.specs.own.Queue.{JoinsQueue, LeavesQueue};

use crate::candidate::Candidate;
use crate::heap::Heap;
use crate::row::Row;
use std::alloc::{AllocError, Global};
use std::marker::Model;

/// Candidates, of which one with the least pair leaves first. Contracts see a list of them.
///
/// Parts are settled in the order of their pairs, and what a part offers to its users comes soon behind its own pair, so most candidates come
/// in the order in which they leave. These stand in a row, which takes no search; a heap has the others.
#[derive(Drop)]
pub(crate) struct Queue {
    row: Row,
    heap: Heap,
}

impl Model for Queue {
    ghost use Rattle.std.specs.Prelude.{List, ◌++◌};
    ghost use Rattle.abnf_least.specs.declared.candidate.Candidate.{Candidate};

    ghost Value = { List Candidate };

    ghost view = { λ q. q.row ++ q.heap };
}

impl Queue {
    /// No candidates. It takes no memory.
    pub fn new(alloc: Global) -> Queue
        ensures { result ≡ [] }
    {
        Queue {
            row: Row::new(alloc),
            heap: Heap::new(alloc),
        }
    }

    /// Adds a candidate: to the row where it comes before none that stands there, else to the heap.
    pub fn push(&mut self, candidate: Candidate) -> Result<(), AllocError>
        ensures { OnOk result (JoinsQueue self.old candidate self.new) }
    {
        if self.row.takes(candidate) {
            self.row.push(candidate)
        } else {
            self.heap.push(candidate)
        }
    }

    /// Takes a candidate with the least pair away; `None` where there are none.
    pub fn pop(&mut self) -> Option<Candidate>
        ensures some { IfSome result (λ x. LeavesQueue self.old x self.new) }
        ensures none { IfNone result (self.old ≡ []) }
    {
        let Some(first) = self.row.first() else {
            return self.heap.pop();
        };
        let Some(other) = self.heap.first() else {
            return self.row.pop();
        };
        if other.comes_before(first) {
            self.heap.pop()
        } else {
            self.row.pop()
        }
    }
}
