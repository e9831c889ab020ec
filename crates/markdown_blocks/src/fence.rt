//! The fences of code blocks.

ghost use Rattle.std.specs.Prelude.{◌≡◌, ◌&&◌, Some, None, nat_le};
ghost use Rattle.markdown_blocks.specs.Fences.{closes_fence, fence_of, fence_with, is_abnf, is_abnf_word, is_letter, may_open, opening_fence, with_word};

use crate::attributes::says_abnf;
use crate::line::{are_blank, first_word, margin, marks, without_blanks};

// A fence that opens a block.
#[derive(Clone, Copy)]
pub struct Fence {
    // How many characters stand before it.
    pub indent: usize,
    // Whether these have a `>`, and so the block stands in a quote.
    pub quoted: bool,
    // The character that it is made of, and how many times.
    pub mark: char,
    pub count: usize,
    // Whether the block is ABNF.
    pub is_abnf: bool,
}

// Whether a character is a letter, by its small and its capital form.
fn is_letter(c: char, small: char, capital: char) -> bool
    ensures { result ≡ is_letter small capital c }
{
    c == small || c == capital
}

// Whether a word is `abnf`, in any case of letters.
fn is_abnf_word(word: &[char]) -> bool
    ensures { result ≡ is_abnf_word word.now }
{
    let [a, b, n, f] = word else {
        return false;
    };
    is_letter(*a, 'a', 'A')
        && is_letter(*b, 'b', 'B')
        && is_letter(*n, 'n', 'N')
        && is_letter(*f, 'f', 'F')
}

// Whether the first word of an info string is `abnf`, or the string is an attribute list that says so.
fn is_abnf(info: &[char]) -> bool
    ensures { result ≡ is_abnf info.now }
{
    is_abnf_word(first_word(without_blanks(info))) || says_abnf(info)
}

// Whether marks before an info string may open a block.
fn may_open(mark: char, info: &[char]) -> bool
    ensures { result ≡ may_open mark info.now }
{
    mark == '~' || (mark == '`' && !info.contains(&'`'))
}

// Whether so many marks before an info string begin a block.
fn begin_block(mark: char, count: usize, info: &[char]) -> bool
    ensures { result ≡ (nat_le 3 count && may_open mark info.now) }
{
    count >= 3 && may_open(mark, info)
}

// The fence of so many marks, by its margin and its info string.
fn fence_with(margin: &[char], mark: char, count: usize, info: &[char]) -> Fence
    ensures { result ≡ fence_with margin.now mark count info.now }
{
    Fence {
        indent: margin.len(),
        quoted: margin.contains(&'>'),
        mark,
        count,
        is_abnf: is_abnf(info),
    }
}

// The fence of a line without its margin, if it is one.
fn fence_of(margin: &[char], mark: char, line: &[char]) -> Option<Fence>
    ensures { result ≡ fence_of margin.now mark line.now }
{
    let count = marks(mark, line);
    let info = &line[count..];
    if begin_block(mark, count, info) {
        Some(fence_with(margin, mark, count, info))
    } else {
        None
    }
}

// The fence that a line opens.
pub fn opening(line: &[char]) -> Option<Fence>
    ensures { result ≡ opening_fence line.now }
{
    let (margin, rest) = line.split_at(margin(true, line));
    let mark = *rest.first()?;
    fence_of(margin, mark, rest)
}

impl Fence {
    // The same fence of a block that is ABNF if it was, or if this says so.
    pub fn with_word(self, says: bool) -> Fence
        ensures { result ≡ with_word says self }
    {
        Fence {
            indent: self.indent,
            quoted: self.quoted,
            mark: self.mark,
            count: self.count,
            is_abnf: self.is_abnf || says,
        }
    }

    // Whether a line closes the block.
    pub fn closes(self, line: &[char]) -> bool
        ensures { result ≡ closes_fence self line.now }
    {
        let rest = &line[margin(self.quoted, line)..];
        let count = marks(self.mark, rest);
        count >= self.count && are_blank(&rest[count..])
    }
}
