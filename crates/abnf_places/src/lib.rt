//! Where one name stands in a text.
//!
//! [`name_at`] gives the name that stands at an offset, and [`places_of`] where a name stands: the places that the text's
//! grammar has. Neither makes that grammar, nor a list of all names. The one reads the block at the offset, and the other
//! the blocks in which the name is written at all.
#![tactic(auto)]

mod block;
mod laws;
mod point;
mod search;
mod stated;
mod wanted;

pub use laws::places_are_unique;
pub use point::name_at;
pub use search::places_of;
pub use wanted::Wanted;
