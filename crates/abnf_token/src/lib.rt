//! The tokens of ABNF: a line is cut into texts that borrow from it.
//!
//! [`tokens`] goes over the tokens of one line of a grammar, each a slice of the line with its class. The classes are the
//! terminals of RFC 5234 section 4 and RFC 7405 section 2.2; a character that begins none of them is a token of its own,
//! so that each line has tokens, and just one list of them. [`marks_of`] and [`push_marks`] keep where they stand, and [`token_at`]
//! gives one of them again. [`number_of`] reads the digits of numbers, and [`Folded`] compares names as ABNF does, without case.
//! Nothing but [`marks_of`] and [`push_marks`] allocates.
#![tactic(auto)]

mod existence;
mod folded;
mod machine;
mod mark;
mod number;
mod renaming;
mod scan;
mod token;

pub use existence::lines_have_tokens;
pub use folded::Folded;
pub use mark::{TokenMark, marks_of, push_marks, token_at};
pub use number::{base_of, digit_value, number_of};
pub use renaming::renames_keep_tokens;
pub use scan::{TokenIter, tokens};
pub use token::{Kind, Token};
