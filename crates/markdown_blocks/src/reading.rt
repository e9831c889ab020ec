//! What is read of a draft before a line.

ghost use Rattle.std.specs.Prelude.{◌≡◌};
ghost use Rattle.markdown_blocks.specs.Fences as spec;
ghost use Rattle.markdown_blocks.specs.own.Fronts as own;

use crate::attributes::{begins_comment, begins_extension, ends_extension, has_end, says_abnf};
use crate::fence::{Fence, opening};

// What is read of a draft before a line.
#[derive(Clone, Copy)]
pub enum Reading {
    // Text, or nothing.
    Text,
    // A block has just ended.
    BehindBlock,
    // The line before is an attribute list that says that the next block is ABNF.
    BehindAttributes,
    // A comment that hasn't ended.
    Comment,
    // What kramdown leaves out, and hasn't ended.
    Extension,
    // A block that hasn't ended.
    Block(Fence),
}

impl Reading {
    // Whether the line before says that the next block is ABNF.
    fn asks(self) -> bool
        ensures { result ≡ spec.asks self }
    {
        match self {
            Reading::BehindAttributes => true,
            _ => false,
        }
    }

    // Whether an attribute list speaks of the next block.
    fn may_ask(self) -> bool
        ensures { result ≡ spec.may_ask self }
    {
        match self {
            Reading::BehindBlock => false,
            _ => true,
        }
    }

    // Whether a comment hasn't ended, or what kramdown leaves out.
    pub fn goes_on(self) -> bool
        ensures { result ≡ own.goes_on self }
    {
        match self {
            Reading::Comment | Reading::Extension => true,
            _ => false,
        }
    }

    // Whether lines in which nothing but text may begin are passed over.
    pub fn passes(self) -> bool
        ensures { result ≡ own.passes self }
    {
        match self {
            Reading::Comment | Reading::Extension | Reading::Block(_) => false,
            _ => true,
        }
    }

    // What is read behind a line of text, without its line end.
    fn behind_text(self, line: &[char]) -> Reading
        ensures { result ≡ spec.behind_text self line.now (spec.opening_fence line.now) }
    {
        if let Some(fence) = opening(line) {
            return Reading::Block(fence.with_word(self.asks()));
        }
        if begins_comment(line) {
            Reading::Comment
        } else if begins_extension(line) {
            Reading::Extension
        } else if self.may_ask() && says_abnf(line) {
            Reading::BehindAttributes
        } else {
            Reading::Text
        }
    }

    // What is read behind a line that isn't in a block, without its line end.
    pub fn behind_line(self, line: &[char]) -> Reading
        ensures { result ≡ spec.behind_line self line.now }
    {
        match self {
            Reading::Comment if has_end(line) => Reading::Text,
            Reading::Extension if ends_extension(line) => Reading::Text,
            Reading::Comment => Reading::Comment,
            Reading::Extension => Reading::Extension,
            _ => self.behind_text(line),
        }
    }
}
