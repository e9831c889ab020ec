//! The lines of a text, cut from its front.

ghost use Rattle.std.specs.Prelude.{◌≡◌, ℕ, ◌<◌, ◌≤◌, false, true, length, take, drop, slice_index};
ghost use Rattle.std.specs.Str.{chars};
ghost use Rattle.ls_text.specs.Cut.{end_text, first_end};
ghost use Rattle.ls_text.specs.Lines.{is_break};
ghost use Rattle.markdown_blocks.specs.own.Reading.{line_len};

use memchr::memchr2;

// Where the first LF or CR stands, or the length.
fn first_break(bytes: &[u8]) -> usize
    ensures in_range { result ≤ length bytes.now }
    ensures before { (k : ℕ) → k < result → is_break (slice_index bytes.now k) ≡ false }
    ensures found { result < length bytes.now → is_break (slice_index bytes.now result) ≡ true }
{
    match memchr2(b'\n', b'\r', bytes) {
        Some(at) => at,
        None => bytes.len(),
    }
}

// How many bytes the line end has at the front of these, which begin with LF or CR, or are no more.
fn end_len(bytes: &[u8]) -> usize
    ensures { result ≡ length (end_text (first_end bytes.now)) }
{
    match bytes {
        [] => 0,
        [b'\n', ..] => 1,
        [_, b'\n', ..] => 2,
        _ => 1,
    }
}

// The first line of a text, with its line end, and what follows.
pub fn first_line(text: &str) -> (&str, &str)
    ensures line { chars result.0.now ≡ take (line_len (chars text.now)) (chars text.now) }
    ensures behind { chars result.1.now ≡ drop (line_len (chars text.now)) (chars text.now) }
    ensures some { 0 < length text.now → length (chars result.1.now) < length (chars text.now) }
    ensures even { length text.now ≡ length (chars text.now) → (length result.0.now ≡ length (chars result.0.now)) × (length result.1.now ≡ length (chars result.1.now)) }
{
    let bytes = text.as_bytes();
    let n = first_break(bytes);
    let (_, after) = text.split_at(n);
    text.split_at(n + end_len(after.as_bytes()))
}

// The number of characters, which may be known to be that of bytes.
pub fn char_count(text: &str, even: bool) -> usize
    requires { even ≡ true → length text.now ≡ length (chars text.now) }
    ensures { result ≡ length (chars text.now) }
{
    if even {
        return text.len();
    }
    if text.is_ascii() {
        return text.len();
    }
    text.chars().count()
}
