//! Lines of a draft that are passed over many at once.

ghost use Rattle.std.specs.Prelude.{◌≡◌, ℕ, suc, ◌<◌, ◌≤◌, ◌==◌, ◌||◌, ◌++◌, false, true, length, slice_index};
ghost use Rattle.std.specs.List.{list_any};
ghost use Rattle.std.specs.Str.{chars};
ghost use Rattle.markdown_blocks.specs.own.Fronts as spec;

use memchr::{memchr, memrchr};

// How many bytes are looked at in one go, so that a draft with marks in each line is not read again for each.
const WINDOW: usize = 1024;

// How many bytes stand before the first of these.
fn before(mark: u8, bytes: &[u8]) -> usize
    ensures in_range { result ≤ length bytes.now }
    ensures before { (k : ℕ) → k < result → (slice_index bytes.now k == mark) ≡ false }
{
    match memchr(mark, bytes) {
        Some(at) => at,
        None => bytes.len(),
    }
}

// How many bytes stand before the first backtick or tilde.
fn before_fences(bytes: &[u8]) -> usize
    ensures in_range { result ≤ length bytes.now }
    ensures before { (k : ℕ) → k < result → (slice_index bytes.now k == 96 || slice_index bytes.now k == 126) ≡ false }
{
    let marks = before(b'`', bytes);
    before(b'~', &bytes[..marks])
}

// How many bytes stand before the first `<` or `{`.
fn before_lists(bytes: &[u8]) -> usize
    ensures in_range { result ≤ length bytes.now }
    ensures before { (k : ℕ) → k < result → (slice_index bytes.now k == 60 || slice_index bytes.now k == 123) ≡ false }
{
    let marks = before(b'<', bytes);
    before(b'{', &bytes[..marks])
}

// How many bytes stand before the first with which anything but text may begin.
fn plain_len(bytes: &[u8]) -> usize
    ensures in_range { result ≤ length bytes.now }
    ensures before { (k : ℕ) → k < result → spec.may_begin_with (slice_index bytes.now k) ≡ false }
{
    let marks = before_fences(bytes);
    before_lists(&bytes[..marks])
}

// How many bytes are up to the last LF.
fn whole_len(bytes: &[u8]) -> usize
    ensures in_range { result ≤ length bytes.now }
    ensures last { (k : ℕ) → suc k ≡ result → slice_index bytes.now k ≡ 10 }
{
    match memrchr(b'\n', bytes) {
        Some(at) => at + 1,
        None => 0,
    }
}

// How many bytes the lines have at the front of these that are passed over.
fn prose_len(bytes: &[u8]) -> usize
    ensures in_range { result ≤ length bytes.now }
    ensures before { (k : ℕ) → k < result → spec.may_begin_with (slice_index bytes.now k) ≡ false }
    ensures last { (k : ℕ) → suc k ≡ result → slice_index bytes.now k ≡ 10 }
{
    let plain = plain_len(&bytes[..bytes.len().min(WINDOW)]);
    whole_len(&bytes[..plain])
}

// Lines at the front of a text in which nothing but text may begin, none or many, and what follows.
pub fn prose(text: &str) -> (&str, &str)
    ensures joins { chars text.now ≡ chars result.0.now ++ chars result.1.now }
    ensures whole { spec.are_whole (chars result.0.now) ≡ true }
    ensures plain { list_any spec.may_begin_with (chars result.0.now) ≡ false }
    ensures some { 0 < length result.0.now → 0 < length (chars result.0.now) }
    ensures even { length text.now ≡ length (chars text.now) → (length result.0.now ≡ length (chars result.0.now)) × (length result.1.now ≡ length (chars result.1.now)) }
{
    text.split_at(prose_len(text.as_bytes()))
}
