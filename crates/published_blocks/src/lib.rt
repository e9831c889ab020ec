//! The blocks of ABNF in the text of a published RFC.
//!
//! Nothing marks a grammar there. A run of lines that begins with a rule's name and `=` is taken, where each block of it is
//! a rule; page breaks are left out. What begins so and isn't taken is reported.
#![tactic(auto)]

mod found;
mod gather;
mod laws;
mod line;
mod reading;
mod run;

pub use found::Published;
pub use gather::gather_published;
pub use laws::{published_grammars_are_unique, published_grammars_exist};
