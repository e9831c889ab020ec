//! The least lengths of what the rules of a grammar generate, and shortest sentences.
//!
//! [`least`] finds a certificate of least lengths for any grammar, [`example`] what is known of the shortest strings of a rule by an
//! accepted certificate, with such a string where it is short enough to be shown, and [`render`] its text.
#![tactic(auto)]

mod candidate;
mod given;
mod heap;
mod laws;
mod offer;
mod queue;
mod rendering;
mod row;
mod search;
mod shortest;
mod sweep;
mod users;
mod walk;
mod work;

pub use laws::{
    certificates_exist, examples_are_unique, examples_exist, sentences_are_generated,
    sentences_are_unique,
};
pub use rendering::render;
pub use search::least;
pub use shortest::{Shortest, example};
