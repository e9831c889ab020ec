//! What must be known of a text's blocks for its findings, without tokens and without trees.
//!
//! The digest of a block has the name that it defines, the names that it uses, and the gists of the alternatives that it says. A gist is
//! what is left of a tree where it only matters whether it generates anything and which rules it leads to.
//!
//! Digests say which names stand for rules, which rules generate nothing, and what is found at heads. They know no lines: where a part
//! of a text is replaced, only the blocks of that part have new digests. There is no code here: the functions are laws, and do nothing.
#![tactic(auto)]

mod laws;

pub use laws::{
    digests_know_no_lines, digests_name_the_rules, digests_tell_roles,
    digests_tell_the_gists_of_rules, digests_tell_what_is_unproductive, equal_digests_find_alike,
    findings_move, gists_yield_alike, one_part_is_read_anew,
};
