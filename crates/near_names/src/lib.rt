//! Which of the known names is meant where another one stands that isn't known.
//!
//! [`nearest`] gives the known name that is the fewest letters away from another one, where it is near at all, as
//! specs/Near has it.
#![tactic(auto)]

mod laws;
mod near;

pub use laws::{nearest_names_are_nearest, nearest_names_are_unique};
pub use near::nearest;
