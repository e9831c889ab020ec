//! What stands beside a block, and says what it is.

ghost use Rattle.std.specs.Prelude.{◌≡◌, ◌+◌, ◌<◌, ◌^◌, length};
ghost use Rattle.markdown_blocks.specs.Unread as spec;

use crate::line::{are_blank, margin, marks, without_blanks};
use crate::reading::Reading;

// What is known before a line of an open block, or of the next one, beside its fence.
#[derive(Clone, Copy)]
pub struct Beside {
    // Whether nothing says so far what the block is. Where none is open: whether the line before is no attribute list.
    pub is_bare: bool,
    // The offset of the first mark of its fence, or zero where no block is open.
    pub at: usize,
}

// No attribute list stands in the line before.
pub const NO_LIST: Beside = Beside {
    is_bare: true,
    at: 0,
};

// Whether a line, without its line end, begins as an attribute list does.
pub fn begins_list(line: &[char]) -> bool
    ensures { result ≡ spec.begins_list line.now }
{
    match without_blanks(line) {
        ['{', ..] => true,
        _ => false,
    }
}

// Whether behind the margin and the marks of a line, without its line end, only blanks stand.
fn has_no_info(line: &[char]) -> bool
    ensures { result ≡ spec.has_no_info line.now }
{
    let rest = &line[margin(true, line)..];
    match rest {
        [mark, ..] => are_blank(&rest[marks(*mark, rest)..]),
        [] => true,
    }
}

impl Beside {
    // What is known behind a line at an offset, without its line end, by what is read then.
    pub fn behind(self, next: Reading, at: usize, line: &[char]) -> Beside
        requires { at + length line.now < 2 ^ 64 }
        ensures { result ≡ spec.beside_behind next self at line.now }
    {
        match next {
            Reading::Block(_) => Beside {
                is_bare: self.is_bare && has_no_info(line),
                at: at + margin(true, line),
            },
            _ => Beside {
                is_bare: !begins_list(line),
                at: 0,
            },
        }
    }

    // The same of a block that isn't bare if this says that an attribute list stands behind it.
    pub fn with_list(self, stands: bool) -> Beside
        ensures { result ≡ spec.with_list stands self }
    {
        Beside {
            is_bare: self.is_bare && !stands,
            at: self.at,
        }
    }
}
