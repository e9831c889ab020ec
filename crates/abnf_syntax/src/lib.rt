//! The syntax of ABNF: a text is cut into blocks, and a block is parsed to a rule.
//!
//! [`blocks`] cuts a text at the lines whose indent is not above that of its first rule, and gives the items of each
//! block: its tokens without blanks and comments. [`parse_block`] reads the items of a block as a rule of RFC 5234
//! section 4, with the strings of RFC 7405, or says what is wrong first, and where; [`check_block`] says only whether it
//! does, or what is wrong; and [`read_block`] reads one of which that is known. Tokens, items and rules hold slices of
//! the text's lines: no text is copied.
#![tactic(auto)]

mod block;
mod check;
mod ends;
mod existence;
mod fault;
mod heading;
mod item;
mod kinds;
mod number;
mod parse;
mod parser;
mod sheet;
mod spare;
mod table;
mod tree;

pub use block::{Block, Head, blocks, blocks_between};
pub use check::check_block;
pub use ends::Headed;
pub use existence::{items_say_something, texts_have_blocks};
pub use fault::SyntaxFault;
pub use item::Item;
pub use kinds::is_item;
pub use parse::{parse_block, read_block};
pub use sheet::{Row, Sheet, Top};
pub use spare::Spare;
pub use table::{MAX_NESTING, place_of};
pub use tree::{Alternation, Concatenation, Element, Repetition, Rule};
