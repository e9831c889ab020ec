//! The parts of ABNF rules, as trees and as numbered nodes.
//!
//! Contracts see a rule as a tree of parts: texts, numbers, sequences, choices, repetitions and names. The code has one list of
//! [`Node`]s, each before the nodes of its parts, which it refers to by their numbers. [`push_concatenations`] pushes the nodes of
//! the alternatives of a rule's body, [`push_needed`] those of the core rules of RFC 5234 (appendix B.1), and [`RuleNames`] gives
//! the number of the rule that a name stands for.
//!
//! What a part generates, and which rules lead to prose or to a faulty block, is defined here beside the trees; [`laws`] says what
//! worked rules generate.
#![tactic(auto)]

mod core_rule;
mod core_tree;
pub mod laws;
mod leaf;
mod names;
mod node;
mod seeded;
mod tree;

pub use core_rule::{Core, core_names, is_core_name, needed_rules};
pub use core_tree::push_needed;
pub use leaf::{range_of, repeat_bounds};
pub use names::{Names, RuleNames};
pub use node::{Node, NodeNo, RuleNo};
pub use seeded::Seeded;
pub use tree::{fill, push_concatenations};
