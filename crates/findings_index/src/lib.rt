//! What the digests of a text's blocks tell of its names, and so what is found in the text.
//!
//! [`Digests`] keeps what each block says of names: its head, and the gists of its alternatives as words, in which names stand by their
//! numbers. Beside each digest stand the block's lines, and whether it has findings of its own, whatever other blocks say. A block is read
//! only to be pushed ([`Digests::push`]). Where a part of the text is replaced its new blocks are pushed, and come in place of those that
//! go ([`Digests::replace`]).
//!
//! The [`NameIndex`] says what the blocks tell of each other: the role of each block's head, whether the head's name generates nothing, and
//! which names stand for nothing. By it and by its digest a block may be known to have no findings ([`Digests::is_quiet`]), so that it
//! needn't be read. The findings of the others are told by their items and the outcome ([`Digests::push_found`]).
//!
//! A name holds where its rule would generate something if all that is opaque did. A rule generates nothing that is known to generate
//! nothing exactly where its name neither holds nor leads to something opaque ([`names_tell_what_is_unproductive`]). So what is found in
//! a text is found in its blocks by what is told of each ([`texts_are_found_by_told`]). A block that says a rule uses no name that its
//! digest hasn't ([`rules_use_the_names_of_their_items`]).
#![tactic(auto)]

mod alone;
mod digest;
mod evaluate;
mod found_in;
mod heads;
mod laws;
mod outcome;
mod pending;
mod quiet;
mod settling;
mod store;
mod sweep;
mod table;
mod word;

pub use digest::{BlockDigest, HeadNumber};
pub use evaluate::words_tell_what_holds;
pub use found_in::{BlockTold, flags_tell_of_blocks};
pub use laws::{
    blocks_are_found_by_told, blocks_are_found_in_order, marks_tell_of_blocks,
    marks_tell_what_holds, marks_tell_what_leads, names_stand_for_nothing,
    names_tell_what_is_unproductive, rows_by_told, rules_use_the_names_of_their_items,
    texts_are_found_by_told,
};
pub use outcome::NameIndex;
pub use store::Digests;
pub use table::tables_keep_numbers;
pub use word::{Word, words_tell_what_is_used};
