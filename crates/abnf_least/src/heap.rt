//! Candidates in any order.

ghost use Rattle.std.specs.Prelude.{IfNone, IfSome, OnOk, ◌≡◌, []};
ghost use Rattle.abnf_least.specs.own.Queue.{IsFirstCandidate, JoinsQueue, LeavesQueue};

use crate::candidate::Candidate;
use std::alloc::{AllocError, Global};
use std::cmp::Reverse;
use std::collections::BinaryHeap;
use std::marker::Model;

/// Candidates, of which the least leaves first. Contracts see a list of them.
#[derive(Drop)]
pub(crate) struct Heap {
    heap: BinaryHeap<Reverse<Candidate>>,
}

impl Model for Heap {
    ghost use Rattle.std.specs.Prelude.{List, map};
    ghost use Rattle.abnf_least.specs.declared.candidate.Candidate.{Candidate};

    ghost Value = { List Candidate };

    ghost use Rattle.std.specs.BinaryHeap.{IsHeap, heap_items};
    ghost use Rattle.abnf_least.specs.own.Order.{candidate_cmp};

    ghost view = { λ q. map (λ r. r.0) (heap_items q.heap) };

    ghost invariant = { λ q. IsHeap (λ x y. candidate_cmp y.0 x.0) (heap_items q.heap) };
}

impl Heap {
    /// No candidates. It takes no memory.
    pub fn new(alloc: Global) -> Heap
        ensures { result ≡ [] }
    {
        Heap {
            heap: BinaryHeap::new(alloc),
        }
    }

    /// Adds a candidate, in time by the logarithm of their number.
    pub fn push(&mut self, candidate: Candidate) -> Result<(), AllocError>
        ensures { OnOk result (JoinsQueue self.old candidate self.new) }
    {
        self.heap.push(Reverse(candidate))?;
        Ok(())
    }

    /// The least candidate; `None` where there are none.
    pub fn first(&self) -> Option<Candidate>
        ensures some { IfSome result (λ x. IsFirstCandidate self.now x) }
        ensures none { IfNone result (self.now ≡ []) }
    {
        match self.heap.peek() {
            Some(Reverse(candidate)) => Some(*candidate),
            None => None,
        }
    }

    /// Takes the least candidate away, in time by the logarithm of their number; `None` where there are none.
    pub fn pop(&mut self) -> Option<Candidate>
        ensures some { IfSome result (λ x. LeavesQueue self.old x self.new) }
        ensures none { IfNone result (self.old ≡ []) }
    {
        match self.heap.pop() {
            Some(Reverse(candidate)) => Some(candidate),
            None => None,
        }
    }
}
