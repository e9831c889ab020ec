//! Candidates in their order.

ghost use Rattle.std.specs.Prelude.{IfNone, IfSome, IsTrue, OnOk, ◌≡◌, ◌↔◌, []};
ghost use Rattle.abnf_least.specs.own.Queue.{ComesLast, IsFirstCandidate, JoinsQueue, LeavesQueue};

use crate::candidate::Candidate;
use std::alloc::{AllocError, Global};
use std::collections::VecDeque;
use std::marker::Model;

/// Candidates in the order of their pairs. Contracts see their list.
#[derive(Drop)]
pub(crate) struct Row {
    candidates: VecDeque<Candidate>,
}

impl Model for Row {
    ghost use Rattle.std.specs.Prelude.{List};
    ghost use Rattle.abnf_least.specs.own.Queue.{IsInOrder};
    ghost use Rattle.abnf_least.specs.declared.candidate.Candidate.{Candidate};

    ghost Value = { List Candidate };

    ghost view = { λ r. r.candidates.items };

    ghost invariant = { λ r. IsInOrder r.candidates.items };
}

impl Row {
    /// No candidates. It takes no memory.
    pub fn new(alloc: Global) -> Row
        ensures { result ≡ [] }
    {
        Row {
            candidates: VecDeque::new(alloc),
        }
    }

    /// Whether a candidate may join at the end: it comes before none of the others.
    pub fn takes(&self, candidate: Candidate) -> bool
        ensures { IsTrue result ↔ ComesLast self.now candidate }
    {
        match self.candidates.back() {
            Some(last) => !candidate.comes_before(*last),
            None => true,
        }
    }

    /// A candidate joins at the end.
    pub fn push(&mut self, candidate: Candidate) -> Result<(), AllocError>
        requires { ComesLast self.old candidate }
        ensures { OnOk result (JoinsQueue self.old candidate self.new) }
    {
        self.candidates.push_back(candidate)?;
        Ok(())
    }

    /// The first candidate.
    pub fn first(&self) -> Option<Candidate>
        ensures some { IfSome result (λ x. IsFirstCandidate self.now x) }
        ensures none { IfNone result (self.now ≡ []) }
    {
        match self.candidates.front() {
            Some(first) => Some(*first),
            None => None,
        }
    }

    /// Takes the first candidate away.
    pub fn pop(&mut self) -> Option<Candidate>
        ensures some { IfSome result (λ x. LeavesQueue self.old x self.new) }
        ensures none { IfNone result (self.old ≡ []) }
    {
        self.candidates.pop_front()
    }
}
