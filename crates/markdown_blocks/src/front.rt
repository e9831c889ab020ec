//! What a line begins with, seen before its characters are taken one by one.

ghost use Rattle.std.specs.Prelude.{◌≡◌, ◌≤◌, length, drop, min};
ghost use Rattle.std.specs.Str.{chars};
ghost use Rattle.markdown_blocks.specs.Fences.{margin};
ghost use Rattle.markdown_blocks.specs.own.Fronts as spec;

use crate::fence::Fence;
use crate::line::is_margin;

// The first character behind a line's margin, if one stands there.
fn first_behind(quoted: bool, line: &str) -> Option<char>
    ensures { result ≡ spec.first_behind quoted (chars line.now) }
{
    for c in line.chars() {
        if !is_margin(quoted, c) {
            return Some(c);
        }
    }
    None
}

// Whether a fence may begin with a character, or a comment, what kramdown leaves out, or an attribute list.
fn may_begin(first: Option<char>) -> bool
    ensures { result ≡ spec.may_begin first }
{
    match first {
        Some(c) => c == '`' || c == '~' || c == '<' || c == '{',
        None => false,
    }
}

// Whether a line may be anything but text.
pub fn may_matter(line: &str) -> bool
    ensures { result ≡ spec.may_matter (chars line.now) }
{
    may_begin(first_behind(true, line))
}

// Whether a line may close a block of this fence.
pub fn may_close(fence: Fence, line: &str) -> bool
    ensures { result ≡ spec.may_close fence (chars line.now) }
{
    if fence.count == 0 {
        return true;
    }
    match first_behind(fence.quoted, line) {
        Some(c) => c == fence.mark,
        None => false,
    }
}

// How many characters of the margin a line begins with, at most as many as the fence has before it.
fn margin_gone(fence: Fence, line: &str) -> usize
    ensures { result ≡ min fence.indent (margin fence.quoted (chars line.now)) }
{
    let mut gone = 0;
    for c in line.chars() {
        if gone == fence.indent || !is_margin(fence.quoted, c) {
            return gone;
        }
        gone += 1;
    }
    gone
}

// How many characters of its margin a line of a block has before the block's content, and that content.
pub fn content(fence: Fence, line: &str) -> (usize, &str)
    ensures gone { result.0 ≡ min fence.indent (margin fence.quoted (chars line.now)) }
    ensures content { chars result.1.now ≡ drop result.0 (chars line.now) }
    ensures within { result.0 ≤ length (chars line.now) }
{
    let gone = margin_gone(fence, line);
    let (_, content) = line.split_at(gone);
    (gone, content)
}
