//! The rules of an ABNF grammar: what its names stand for, the parts of each rule, and the places of names in its text.
//!
//! [`Grammar::of`] reads a text. Contracts see a grammar as its text, the names and trees of its rules, the places of
//! names and the faults of blocks, all of which are functions of the text's blocks; the code has numbered nodes, and
//! finds the rule of a name by a hash. Only [`Grammar::places`] and [`Grammar::name_at`] look through all places.
//! [`push_places`] reads the places of one block alone. A text has at most one grammar ([`grammars_are_unique`]).
#![tactic(auto)]

mod grammar;
mod groups;
mod laws;
mod place;
mod range;
mod reach;
mod rules;
mod section;
mod sections;
mod short_list;
mod text_names;

pub use abnf_parts::{Node, NodeNo, RuleNo};
pub use grammar::Grammar;
pub use laws::{grammars_are_unique, grammars_exist, places_ascend};
pub use place::{NamePlace, PlacesOfName, Spot, found_at, is_touched, push_places};
pub use section::Section;
pub use sections::{rule_of, section_of, sections_of};
