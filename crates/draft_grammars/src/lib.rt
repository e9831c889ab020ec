//! The grammar of a draft, and the way between positions in both.
//!
//! A draft of a standard has its grammar in blocks: fenced ones in Markdown, elements in RFCXML. [`DraftGrammar`] is what
//! `markdown_blocks` and `xml_blocks` gather from them, as one text. A [`SourceMap`] carries positions of the draft inward, to the text of
//! its grammar, and positions and ranges of that outward, to where they come from. [`renamed_ranges`] carries the edits of a rename, and
//! tries them: they are granted only where they give the draft just that grammar. So does [`inserted_lines`] with lines that are inserted. This
//! crate knows no question and no answer.
#![tactic(auto)]

mod following;
mod format;
mod grammar;
mod insertion;
mod places;
mod rename;

pub use format::Format;
pub use grammar::DraftGrammar;
pub use insertion::{Inserted, inserted_lines};
pub use places::SourceMap;
pub use rename::{DraftRenameFault, renamed_ranges};
