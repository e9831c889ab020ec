//! Some lines that texts share, and where each of them starts.

ghost use Rattle.std.specs.Prelude.{◌≡◌, ◌+◌, ◌<◌, ◌≤◌, ◌++◌, ◌∷◌, [], length, All, OnOk, IfOk, IfErr, slice_index};
ghost use Rattle.std.specs.Char.{IsScalar};
ghost use Rattle.std.specs.List.{flat_map};
ghost use Rattle.std.specs.Str.{encode_utf8_all};
ghost use Rattle.ls_text.specs.Lines.{max_bytes};
ghost use Rattle.ls_text.specs.Cut.{text_of, IsIndex};

use crate::fault::TextFault;
use crate::part::Part;
use crate::snapshot::MAX_BYTES;
use std::alloc::{AllocError, Global};

// How many lines a chunk has at most.
pub const MOST_LINES: usize = 512;

// Some lines that follow one another, which texts share.
#[derive(Drop)]
pub struct Chunk {
    pub lines: Part,
    // Where each line starts, in characters from the chunk's start.
    pub starts: Vec<usize>,
    // The characters of the lines with their line ends.
    pub char_count: usize,
    // Their bytes.
    pub byte_count: usize,
    ghost some: { 0 < length lines },
    ghost few: { length lines ≤ 512 },
    ghost index: { IsIndex starts.items char_count lines },
    ghost bytes_are: { byte_count ≡ length (encode_utf8_all (text_of lines)) },
    ghost small: { byte_count ≤ max_bytes },
    ghost scalars: { All IsScalar (text_of lines) },
}

// Adds a number.
#[inline(always)]
pub fn push_number(numbers: &mut Vec<usize>, number: usize) -> Result<(), AllocError>
    ensures { OnOk result (numbers.new.items ≡ numbers.old.items ++ number ∷ []) }
{
    numbers.push(number)?;
    Ok(())
}

// Where lines start, and how long they are.
#[derive(Drop)]
struct Index {
    starts: Vec<usize>,
    char_count: usize,
    byte_count: usize,
}

// The index of these lines.
fn index_of(alloc: Global, lines: &Part) -> Result<Index, TextFault>
    ensures index { IfOk result (λ i. IsIndex i.starts.items i.char_count lines.now) }
    ensures bytes_are { IfOk result (λ i. i.byte_count ≡ length (encode_utf8_all (text_of lines.now))) }
    ensures small { IfOk result (λ i. i.byte_count ≤ MAX_BYTES) }
    ensures scalars { IfOk result (λ _. All IsScalar (text_of lines.now)) }
    ensures too_large { let text = text_of lines.now in
        IfErr result (λ e. e ≡ TextFault.TooLarge → MAX_BYTES < length (encode_utf8_all text)) }
{
    let mut starts = Vec::with_capacity(alloc, lines.len())?;
    let mut length = 0;
    let mut bytes = 0;
    for at in 0..lines.len() {
        let line = lines.line(at);
        push_number(&mut starts, length)?;
        let ends = line.end().len();
        let more = line.text().len().saturating_add(ends);
        if more > MAX_BYTES - bytes {
            return Err(TextFault::TooLarge);
        }
        length += line.char_count() + ends;
        bytes += more;
    }
    Ok(Index {
        starts,
        char_count: length,
        byte_count: bytes,
    })
}

// The chunk of these lines.
pub fn chunk_of(alloc: Global, lines: Part) -> Result<Chunk, TextFault>
    requires some { 0 < length lines }
    requires few { length lines ≤ MOST_LINES }
    ensures ok { IfOk result (λ c. c.lines ≡ lines) }
    ensures too_large { let text = text_of lines in
        IfErr result (λ e. e ≡ TextFault.TooLarge → MAX_BYTES < length (encode_utf8_all text)) }
{
    let lines = lines.trimmed();
    let index = index_of(alloc, &lines)?;
    Ok(Chunk {
        lines,
        starts: index.starts,
        char_count: index.char_count,
        byte_count: index.byte_count,
    })
}

// The last start at the offset or before it.
pub fn start_before(starts: &[usize], offset: usize) -> usize
    requires first { slice_index starts.now 0 ≡ 0 }
    requires some { 0 < length starts.now }
    ensures in_range { result < length starts.now }
    ensures starts { slice_index starts.now result ≤ offset }
    ensures last { result + 1 < length starts.now → offset < slice_index starts.now (result + 1) }
{
    let mut low = 0;
    let mut high = starts.len();
    'halves: while low + 1 < high {
        let middle = low + (high - low) / 2;
        if starts[middle] <= offset {
            low = middle;
        } else {
            high = middle;
        }
    }
    low
}
