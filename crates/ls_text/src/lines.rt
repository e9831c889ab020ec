//! The lines of a text, in chunks.
//!
//! An edit pays for the list of chunks and for the lines of the chunks that it touches. Of the sizes that were timed, 512 lines are the
//! best at 100,000 lines. No public contract speaks of chunks; the type of one keeps that it has no more.

ghost use Rattle.std.specs.Prelude.{◌≡◌, ◌+◌, ◌<◌, ◌≤◌, ◌++◌, ◌∷◌, [], length, take, drop, All, OnOk, IfOk, IfErr};
ghost use Rattle.std.specs.Arc.{arc_value};
ghost use Rattle.std.specs.Char.{IsScalar};
ghost use Rattle.std.specs.List.{flat_map};
ghost use Rattle.std.specs.Str.{encode_utf8_all};
ghost use Rattle.ls_text.specs.Cut.{text_of, start_of};
ghost use Rattle.ls_text.specs.own.Alike.{IsSameFront, IsSameBack};
ghost use Rattle.ls_text.specs.own.Chunks.{lines_behind, IsLineAt};

use crate::alike::{same_back, same_front};
use crate::chunk::{Chunk, MOST_LINES, chunk_of, push_number, start_before};
use crate::fault::TextFault;
use crate::line::Line;
use crate::part::Part;
use crate::snapshot::MAX_BYTES;
use std::alloc::{AllocError, Global};
use std::hash::DefaultHasher;
use std::marker::Model;
use std::sync::Arc;

// A piece of fewer lines is joined with a chunk beside it.
const FEW_LINES: usize = 128;

// Lines in chunks. A list that is made of another shares the chunks that it has in common with it.
#[derive(Drop)]
pub struct Lines {
    chunks: Vec<Arc<Chunk>>,
    // How many lines come before each chunk.
    first_lines: Vec<usize>,
    // How many characters come before each chunk.
    starts: Vec<usize>,
    count: usize,
    char_count: usize,
    byte_count: usize,
}

impl Model for Lines {
    ghost use Rattle.std.specs.Prelude.{List};
    ghost use Rattle.std.specs.List.{flat_map};
    ghost use Rattle.ls_text.specs.declared.line.Line.{Line};
    ghost use Rattle.ls_text.specs.own.Chunks.{lines_behind, IsSpine};

    ghost Value = { List Line };

    ghost view = { λ s. flat_map lines_behind s.chunks.items };

    ghost invariant = { λ s.
        IsSpine lines_behind s.chunks.items s.first_lines.items s.starts.items s.count s.char_count s.byte_count };
}

// Adds a chunk.
#[inline(always)]
fn push_chunk(chunks: &mut Vec<Arc<Chunk>>, chunk: Arc<Chunk>) -> Result<(), AllocError>
    ensures { OnOk result (chunks.new.items ≡ chunks.old.items ++ chunk ∷ []) }
{
    chunks.push(chunk)?;
    Ok(())
}

// A chunk to share.
fn shared_chunk(alloc: Global, chunk: Chunk) -> Result<Arc<Chunk>, AllocError>
    ensures { IfOk result (λ shared. arc_value shared ≡ chunk) }
{
    Ok(Arc::new(alloc, chunk)?)
}

// These lines, and those of some chunks.
fn with_whole(lines: Part, chunks: &[Arc<Chunk>]) -> Result<Part, AllocError>
    ensures { IfOk result (λ all. all ≡ lines ++ flat_map lines_behind chunks.now) }
{
    let mut all = lines;
    for chunk in chunks {
        let chunk: &Chunk = chunk;
        all = all.with_some(&chunk.lines, 0, chunk.lines.len())?;
    }
    Ok(all)
}

// The lines from a chunk at the front up to a line in another, of which so many lines come before its first.
fn lines_before(
    alloc: Global,
    chunks: &[Arc<Chunk>],
    front: usize,
    place: usize,
    local: usize,
) -> Result<Part, AllocError>
    requires place { place < length chunks.now }
    requires front { front ≤ place }
    requires local { length (flat_map lines_behind (take place chunks.now)) + local
        ≤ length (flat_map lines_behind (take (place + 1) chunks.now)) }
    ensures { let from = length (flat_map lines_behind (take place chunks.now)) + local in
        IfOk result (λ lines. flat_map lines_behind (take front chunks.now) ++ lines
        ≡ take from (flat_map lines_behind chunks.now)) }
{
    let chunk: &Chunk = &chunks[place];
    let none = Part::like(alloc, &chunk.lines)?;
    let lines = with_whole(none, &chunks[front..place])?;
    lines.with_some(&chunk.lines, 0, local)
}

// These lines, and those from one in a chunk, which comes after so many of that chunk, up to another chunk.
fn with_after(
    lines: Part,
    chunks: &[Arc<Chunk>],
    place: usize,
    local: usize,
    back: usize,
) -> Result<Part, AllocError>
    requires place { place < back }
    requires back { back ≤ length chunks.now }
    requires local { length (flat_map lines_behind (take place chunks.now)) + local
        ≤ length (flat_map lines_behind (take (place + 1) chunks.now)) }
    ensures { let to = length (flat_map lines_behind (take place chunks.now)) + local in
        IfOk result (λ all. all ++ flat_map lines_behind (drop back chunks.now)
        ≡ lines ++ drop to (flat_map lines_behind chunks.now)) }
{
    let chunk: &Chunk = &chunks[place];
    let more = lines.with_some(&chunk.lines, local, chunk.lines.len())?;
    with_whole(more, &chunks[place + 1..back])
}

// The chunk from which lines are cut anew: the one before, where the piece has few lines.
fn front_of(few: bool, place: usize) -> usize
    ensures { result ≤ place }
{
    if few && place > 0 { place - 1 } else { place }
}

// The chunk up to which lines are cut anew: past the one after, where the piece has few lines.
fn back_of(few: bool, place: usize, count: usize) -> usize
    requires { place < count }
    ensures after { place < result }
    ensures within { result ≤ count }
{
    if few && place + 1 < count {
        place + 2
    } else {
        place + 1
    }
}

// How many of so many lines come into the next chunk, so that all chunks have about as many.
fn part_of(count: usize) -> usize
    ensures some { 0 < result }
    ensures few { result ≤ MOST_LINES }
{
    let parts = count.div_ceil(MOST_LINES).max(1);
    count.div_ceil(parts).clamp(1, MOST_LINES)
}

impl Lines {
    // No lines, with room for so many chunks.
    pub fn with_room(alloc: Global, room: usize) -> Result<Lines, AllocError>
        ensures { IfOk result (λ lines. lines ≡ []) }
    {
        Ok(Lines {
            chunks: Vec::with_capacity(alloc, room)?,
            first_lines: Vec::with_capacity(alloc, room)?,
            starts: Vec::with_capacity(alloc, room)?,
            count: 0,
            char_count: 0,
            byte_count: 0,
        })
    }

    // These lines, and those of a chunk.
    #[inline(always)]
    fn with_chunk(self, chunk: Arc<Chunk>) -> Result<Lines, TextFault>
        ensures ok { IfOk result (λ lines. lines ≡ self ++ lines_behind chunk) }
        ensures too_large { IfErr result (λ e. e ≡ TextFault.TooLarge →
            MAX_BYTES < length (encode_utf8_all (text_of (self ++ lines_behind chunk)))) }
    {
        let Lines {
            mut chunks,
            mut first_lines,
            mut starts,
            count,
            char_count,
            byte_count,
        } = self;
        let lines_more = chunk.lines.len();
        let chars_more = chunk.char_count;
        let bytes_more = chunk.byte_count;
        if bytes_more > MAX_BYTES - byte_count {
            return Err(TextFault::TooLarge);
        }
        let Some(all) = count.checked_add(lines_more) else {
            return Err(TextFault::Memory);
        };
        push_number(&mut first_lines, count)?;
        push_number(&mut starts, char_count)?;
        push_chunk(&mut chunks, chunk)?;
        Ok(Lines {
            chunks,
            first_lines,
            starts,
            count: all,
            char_count: char_count + chars_more,
            byte_count: byte_count + bytes_more,
        })
    }

    // These lines, and those of some chunks.
    fn with_chunks(self, chunks: &[Arc<Chunk>]) -> Result<Lines, TextFault>
        ensures ok { IfOk result (λ lines. lines ≡ self ++ flat_map lines_behind chunks.now) }
        ensures too_large { IfErr result (λ e. e ≡ TextFault.TooLarge →
            MAX_BYTES < length (encode_utf8_all (text_of (self ++ flat_map lines_behind chunks.now)))) }
    {
        let mut lines = self;
        for chunk in chunks {
            lines = lines.with_chunk(Arc::try_clone(chunk)?)?;
        }
        Ok(lines)
    }

    // These lines, and some more, which come into one chunk.
    pub fn with_part(self, alloc: Global, part: Part) -> Result<Lines, TextFault>
        requires { length part ≤ MOST_LINES }
        ensures ok { IfOk result (λ lines. lines ≡ self ++ part) }
        ensures too_large { IfErr result (λ e. e ≡ TextFault.TooLarge →
            MAX_BYTES < length (encode_utf8_all (text_of (self ++ part)))) }
    {
        if part.len() == 0 {
            return Ok(self);
        }
        let chunk = chunk_of(alloc, part)?;
        self.with_chunk(shared_chunk(alloc, chunk)?)
    }

    // These lines, and some more, cut into chunks.
    fn with_lines(self, alloc: Global, new: Part) -> Result<Lines, TextFault>
        ensures ok { IfOk result (λ lines. lines ≡ self ++ new) }
        ensures too_large { IfErr result (λ e. e ≡ TextFault.TooLarge →
            MAX_BYTES < length (encode_utf8_all (text_of (self ++ new)))) }
    {
        if new.len() <= MOST_LINES {
            return self.with_part(alloc, new);
        }
        self.with_copies(alloc, &new)
    }

    // These lines, and copies of some more, cut into chunks.
    fn with_copies(self, alloc: Global, new: &Part) -> Result<Lines, TextFault>
        ensures ok { IfOk result (λ lines. lines ≡ self ++ new.now) }
        ensures too_large { IfErr result (λ e. e ≡ TextFault.TooLarge →
            MAX_BYTES < length (encode_utf8_all (text_of (self ++ new.now)))) }
    {
        let mut lines = self;
        let mut from = 0;
        'parts: while from < new.len() {
            let left = new.len() - from;
            let to = from + part_of(left).min(left);
            let part = Part::new(alloc).with_some(new, from, to)?;
            lines = lines.with_part(alloc, part)?;
            from = to;
        }
        Ok(lines)
    }

    // These lines again. It shares all chunks.
    pub fn share(&self, alloc: Global) -> Result<Lines, AllocError>
        ensures { IfOk result (λ lines. lines ≡ self.now) }
    {
        match Lines::with_room(alloc, self.chunks.len())?.with_chunks(&self.chunks) {
            Ok(lines) => Ok(lines),
            Err(TextFault::Memory) => Err(AllocError),
            // These lines aren't too large.
            Err(TextFault::TooLarge) => unreachable!(),
        }
    }

    // The lines of some chunks, some more, cut into chunks, and those of some other chunks.
    fn joined(
        alloc: Global,
        front: &[Arc<Chunk>],
        new: Part,
        back: &[Arc<Chunk>],
    ) -> Result<Lines, TextFault>
        ensures ok { IfOk result (λ lines. lines
            ≡ (flat_map lines_behind front.now ++ new) ++ flat_map lines_behind back.now) }
        ensures too_large { let lines = (flat_map lines_behind front.now ++ new) ++ flat_map lines_behind back.now in
            IfErr result (λ e. e ≡ TextFault.TooLarge → MAX_BYTES < length (encode_utf8_all (text_of lines))) }
    {
        let room = front.len().saturating_add(back.len()).saturating_add(2);
        let start = Lines::with_room(alloc, room)?.with_chunks(front)?;
        start.with_lines(alloc, new)?.with_chunks(back)
    }

    // How many lines there are.
    pub fn len(&self) -> usize
        ensures { result ≡ length self.now }
    {
        self.count
    }

    // The characters of the lines with their line ends.
    pub fn char_count(&self) -> usize
        ensures count { result ≡ length (text_of self.now) }
        ensures scalars { All IsScalar (text_of self.now) }
        ensures small { length (encode_utf8_all (text_of self.now)) ≤ MAX_BYTES }
    {
        self.char_count
    }

    // The bytes of the lines with their line ends.
    pub fn byte_count(&self) -> usize
        ensures { result ≡ length (encode_utf8_all (text_of self.now)) }
    {
        self.byte_count
    }

    // A line, and where it starts.
    pub fn line(&self, at: usize) -> (Line<'_>, usize)
        requires { at < length self.now }
        ensures { IsLineAt self.now at result.0 result.1 }
    {
        let place = start_before(&self.first_lines, at);
        let chunk: &Chunk = &self.chunks[place];
        let local = at - self.first_lines[place];
        let line = chunk.lines.line(local);
        (line, self.starts[place] + chunk.starts[local])
    }

    // The last line that starts at the offset or before it: its number, itself, and where it starts.
    pub fn line_before(&self, offset: usize) -> (usize, Line<'_>, usize)
        requires { 0 < length self.now }
        ensures line { IsLineAt self.now result.0 result.1 result.2 }
        ensures starts { result.2 ≤ offset }
        ensures last { result.0 + 1 < length self.now → offset < start_of self.now (result.0 + 1) }
    {
        let place = start_before(&self.starts, offset);
        let chunk: &Chunk = &self.chunks[place];
        let start = self.starts[place];
        let local = start_before(&chunk.starts, offset - start);
        let line = chunk.lines.line(local);
        (
            self.first_lines[place] + local,
            line,
            start + chunk.starts[local],
        )
    }

    // Feeds the texts of all lines to a hasher, those of a chunk in one piece.
    pub fn feed(&self, hasher: &mut DefaultHasher) {
        for chunk in &self.chunks {
            chunk.lines.feed(hasher);
        }
    }

    // How many lines at the front are the same in other lines. It may be fewer than there are.
    pub fn same_front(&self, other: &Lines) -> usize
        ensures { IsSameFront self.now other.now result }
    {
        same_front(&self.chunks, &other.chunks)
    }

    // How many lines at the back are the same in other lines, at most so many. It may be fewer than there are.
    pub fn same_back(&self, other: &Lines, most: usize) -> usize
        ensures most { result ≤ most }
        ensures same { IsSameBack self.now other.now result }
    {
        same_back(&self.chunks, &other.chunks, most)
    }

    // These lines, with those from one up to another replaced. It shares the chunks that have none of them.
    pub fn replaced(
        &self,
        alloc: Global,
        from: usize,
        to: usize,
        new: &Part,
    ) -> Result<Lines, TextFault>
        requires some { 0 < length self.now }
        requires from { from ≤ length self.now }
        requires to { to ≤ length self.now }
        ensures ok { IfOk result (λ lines. lines ≡ take from self.now ++ (new.now ++ drop to self.now)) }
        ensures too_large { let lines = take from self.now ++ (new.now ++ drop to self.now) in
            IfErr result (λ e. e ≡ TextFault.TooLarge → MAX_BYTES < length (encode_utf8_all (text_of lines))) }
    {
        let first = start_before(&self.first_lines, from);
        let last = start_before(&self.first_lines, to);
        let before = from - self.first_lines[first];
        let after = to - self.first_lines[last];
        let left = self.chunks[last].lines.len().saturating_sub(after);
        let few = before.saturating_add(new.len()).saturating_add(left) < FEW_LINES;
        let front = front_of(few, first);
        let back = back_of(few && front == first, last, self.chunks.len());
        let lines = lines_before(alloc, &self.chunks, front, first, before)?;
        let lines = lines.with_some(new, 0, new.len())?;
        let lines = with_after(lines, &self.chunks, last, after, back)?;
        Lines::joined(alloc, &self.chunks[..front], lines, &self.chunks[back..])
    }
}
