//! The numbered nodes of a grammar.

ghost use Rattle.std.specs.Prelude.{◌≡◌};

use abnf_token::Folded;
use ls_lists::List;
use std::marker::Model;

/// The number of a rule, from 0. Contracts see the number.
#[derive(Clone, Copy, Debug, PartialEq, Eq)]
pub struct RuleNo(usize);

impl Model for RuleNo {
    ghost use Rattle.std.specs.Prelude.{ℕ};

    ghost Value = { ℕ };

    ghost view = { λ n. n.0 };

    ghost inverse = { λ n. record { 0 = n } };
}

impl RuleNo {
    /// The rule with this number.
    pub fn new(number: usize) -> RuleNo
        ensures { result ≡ number }
    {
        RuleNo(number)
    }

    /// The number, from 0.
    pub fn get(self) -> usize
        ensures { result ≡ self }
    {
        self.0
    }
}

/// The number of a node, from 0. Contracts see the number.
#[derive(Clone, Copy, Debug, PartialEq, Eq)]
pub struct NodeNo(usize);

impl Model for NodeNo {
    ghost use Rattle.std.specs.Prelude.{ℕ};

    ghost Value = { ℕ };

    ghost view = { λ n. n.0 };

    ghost inverse = { λ n. record { 0 = n } };
}

impl NodeNo {
    /// The node with this number.
    pub fn new(number: usize) -> NodeNo
        ensures { result ≡ number }
    {
        NodeNo(number)
    }

    /// The number, from 0.
    pub fn get(self) -> usize
        ensures { result ≡ self }
    {
        self.0
    }
}

/// A part of a rule (RFC 5234 sections 2 and 3, RFC 7405).
#[derive(Drop)]
pub enum Node<'t> {
    /// A text in quotes, without them. It is exact where `%s` stands before it; else ASCII letters match in either case.
    Quoted {
        text: &'t str,
        exact: bool,
    },
    /// These characters, one after another.
    Series(List<u32>),
    /// One character from `low` to `high`.
    Span {
        low: u32,
        high: u32,
    },
    /// These parts, one after another.
    Seq(List<NodeNo>),
    /// One of these parts.
    Alt(List<NodeNo>),
    /// The part `body`, at least `least` times, and at most `most` times if that is there.
    Rep {
        least: u32,
        most: Option<u32>,
        body: NodeNo,
    },
    /// A name, and the rule that it stands for, if it stands for one.
    Ref {
        name: Folded<'t>,
        rule: Option<RuleNo>,
    },
    /// Prose, or a rule whose block is faulty: nothing is known of what stands for it.
    Opaque,
}
