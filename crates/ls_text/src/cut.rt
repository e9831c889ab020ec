//! The lines of a text, cut from its front.

ghost use Rattle.std.specs.Prelude.{◌≡◌, ℕ, ◌<◌, ◌≤◌, ◌^◌, length, true, false, IfOk, slice_index};
ghost use Rattle.std.specs.Str.{chars};
ghost use Rattle.ls_text.specs.Lines.{is_break};
ghost use Rattle.ls_text.specs.Cut.{IsCutFrom, IsPlain, IsCutOnto};

use crate::line_end::{LineEnd, first_end};
use crate::part::Part;
use memchr::memchr2;
use std::alloc::AllocError;

// Where the first LF or CR stands, or the length.
fn first_break(bytes: &[u8]) -> usize
    ensures in_range { result ≤ length bytes.now }
    ensures before { (k : ℕ) → k < result → is_break (slice_index bytes.now k) ≡ false }
    ensures found { result < length bytes.now → is_break (slice_index bytes.now result) ≡ true }
{
    match memchr2(b'\n', b'\r', bytes) {
        Some(at) => at,
        None => bytes.len(),
    }
}

// The first line of a text, its line end, and what follows.
pub fn first_line(text: &str) -> (&str, LineEnd, &str)
    ensures { IsCutFrom result.0.now result.1 result.2.now text.now }
{
    let bytes = text.as_bytes();
    let n = first_break(bytes);
    let (line, after) = text.split_at(n);
    let end = first_end(after.as_bytes());
    let (_, rest) = after.split_at(end.len());
    (line, end, rest)
}

// These lines, those of a text that have a line end, and what follows them.
pub fn with_lines<'a>(lines: Part, text: &'a str) -> Result<(Part, &'a str), AllocError>
    requires { length text.now < 2 ^ 32 }
    ensures cut { IfOk result (λ r. IsCutOnto lines text.now r.1.now r.0) }
    ensures plain { IfOk result (λ r. IsPlain (chars r.1.now)) }
    ensures small { IfOk result (λ r. length r.1.now ≤ length text.now) }
{
    let mut lines = lines;
    let mut rest = text;
    'lines: loop {
        let (line, end, after) = first_line(rest);
        if let LineEnd::Eof = end {
            return Ok((lines, line));
        }
        lines = lines.pushed(line, end)?;
        rest = after;
    }
}
