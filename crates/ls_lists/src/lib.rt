//! Texts and lists that contracts see as plain lists, and numbers in 32 bits.
//!
//! Two values with the same content are equal in contracts, whatever memory holds them. The other crates keep
//! ids, uris, bodies and trees in these types.
#![tactic(auto)]

mod list;
mod number;
mod text;

pub use list::List;
pub use number::{MOST_NARROW, narrow};
pub use text::Text;
