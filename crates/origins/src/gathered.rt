//! Characters that are gathered from a draft.

ghost use Rattle.std.specs.Prelude.{◌≡◌, ◌==◌, ◌^◌, ◌<◌, List, [], ◌∷◌, ◌++◌, ◌+◌, OnOk, length, position};
ghost use Rattle.std.specs.Option.{option_map};
ghost use Rattle.std.specs.List.{AllByRecursion, slice_get};
ghost use Rattle.std.specs.List.Sorted.{IsNonDecreasingBy};
ghost use Rattle.std.specs.Str.{chars};
ghost use Rattle.origins.specs.Origins as spec;
ghost use Rattle.origins.specs.own.Runs.{AreRuns, origin_at, placed};

use crate::aligned::first_indent;
use crate::rows::{first, first_row, without_indent};
use crate::runs::{Run, continue_at, place_in, run_of, run_of_all};
use std::alloc::{AllocError, Global};
use std::marker::Model;

/// Characters that are gathered from a draft, in their order here. Contracts see each with the offset at which it begins in the draft,
/// which counts characters.
#[derive(Drop)]
pub struct Gathered {
    text: String,
    count: usize,
    runs: Vec<Run>,
}

impl Model for Gathered {
    ghost use Rattle.std.specs.Prelude.{List, string_bytes};
    ghost use Rattle.std.specs.Str.{chars};
    ghost use Rattle.origins.specs.Origins.{Sourced};

    ghost Value = { List Sourced };

    ghost use Rattle.origins.specs.own.Runs.{placed, origin_at, AreHeldRuns};

    ghost view = { λ g. placed (origin_at g.runs.items) 0 (chars (string_bytes g.text)) };

    ghost invariant = { λ g. AreHeldRuns (string_bytes g.text) g.count g.runs.items };
}

// The number of characters.
fn char_count(text: &str) -> usize
    ensures { result ≡ length (chars text.now) }
{
    if text.is_ascii() {
        return text.len();
    }
    text.chars().count()
}

impl Gathered {
    /// No characters. It takes no memory.
    pub fn new(alloc: Global) -> Gathered
        ensures { result ≡ [] }
    {
        Gathered {
            text: String::new(alloc),
            count: 0,
            runs: Vec::new(alloc),
        }
    }

    /// Adds characters that stand in a row in the draft, from this offset on, in time by the bytes of the text.
    ///
    /// # Errors
    ///
    /// Where an allocation is refused. So is an offset that no text in memory has, from 2^63 on.
    pub fn copy(&mut self, text: &str, at: usize) -> Result<(), AllocError>
        ensures { OnOk result (self.new ≡ self.old ++ spec.from at (chars text.now)) }
    {
        continue_at(&mut self.runs, self.count, at)?;
        self.text.push_str(text)?;
        self.count += char_count(text);
        Ok(())
    }

    /// Adds one character, whatever stands for it in the draft at this offset.
    ///
    /// # Errors
    ///
    /// As [`copy`](Gathered::copy): where an allocation is refused, and of an offset from 2^63 on.
    pub fn put(&mut self, character: char, at: usize) -> Result<(), AllocError>
        ensures { OnOk result (self.new ≡ self.old ++ (character, at) ∷ []) }
    {
        continue_at(&mut self.runs, self.count, at)?;
        self.text.push(character)?;
        self.count += 1;
        Ok(())
    }

    /// Adds a block that ends at this offset of the draft: without its base indent, and with a line end at its end. Time
    /// goes by the block's characters.
    ///
    /// # Errors
    ///
    /// As [`copy`](Gathered::copy): where an allocation is refused, and of an offset from 2^63 on. Part of the block may
    /// be there.
    pub fn add_block(&mut self, block: &Gathered, end: usize) -> Result<(), AllocError>
        ensures { OnOk result (self.new ≡ self.old ++ spec.aligned (record { content = block.now; end = end })) }
    {
        let base = first_indent(block.text.as_str());
        put_aligned(self, block.text.as_str(), block.runs.as_slice(), base)?;
        self.put('\n', end)?;
        Ok(())
    }

    /// No characters, with the room of these.
    pub fn clear(&mut self)
        ensures { self.new ≡ [] }
    {
        self.text.clear();
        self.count = 0;
        self.runs.clear();
    }

    /// The characters alone, as a text.
    pub fn as_str(&self) -> &str
        ensures { chars result.now ≡ spec.characters self.now }
    {
        self.text.as_str()
    }

    /// The offset at which a character begins in the draft, by its place here, both in characters; `None` behind the last
    /// one. It is found by halving the runs of characters that stand in a row in the draft.
    pub fn origin_of(&self, offset: usize) -> Option<usize>
        ensures { result ≡ option_map (λ c. c.1) (slice_get self.now offset) }
    {
        if offset < self.count {
            Some(run_of(self.runs.as_slice(), offset).origin_of(offset))
        } else {
            None
        }
    }

    /// The place here of the first character that begins at an offset of the draft, both in characters; `None` where
    /// none does. Time goes by the runs of characters that stand in a row in the draft.
    pub fn place_of(&self, origin: usize) -> Option<usize>
        ensures { result ≡ position (λ c. c.1 == origin) self.now }
    {
        place_in(self.runs.as_slice(), self.count, origin)
    }
}

// Adds the characters of a text, one by one, where the first of them is number `at` of all that have these runs.
fn put_each(to: &mut Gathered, text: &str, runs: &[Run], at: usize) -> Result<(), AllocError>
    requires small_origins { AllByRecursion (λ (r : Run). r.origin < 2 ^ 63) runs.now }
    requires ordered { IsNonDecreasingBy (λ (r : Run). r.begins) runs.now }
    requires small { at + length (chars text.now) < 2 ^ 63 }
    ensures { OnOk result (to.new ≡ to.old ++ placed (origin_at runs.now) at (chars text.now)) }
{
    let mut rest = text;
    let mut at = at;
    'characters: loop {
        let Some((c, more)) = first(rest) else {
            return Ok(());
        };
        to.put(c, run_of(runs, at).origin_of(at))?;
        at += 1;
        rest = more;
    }
}

// Adds the characters of a text in the same way, at once if they are of one run.
fn put_row(
    to: &mut Gathered,
    text: &str,
    count: usize,
    runs: &[Run],
    at: usize,
) -> Result<(), AllocError>
    requires count { count ≡ length (chars text.now) }
    requires small_origins { AllByRecursion (λ (r : Run). r.origin < 2 ^ 63) runs.now }
    requires ordered { IsNonDecreasingBy (λ (r : Run). r.begins) runs.now }
    requires small { at + count < 2 ^ 63 }
    ensures { OnOk result (to.new ≡ to.old ++ placed (origin_at runs.now) at (chars text.now)) }
{
    if let Some(run) = run_of_all(runs, at, count) {
        to.copy(text, run.origin_of(at))?;
        return Ok(());
    }
    put_each(to, text, runs, at)
}

// Adds the characters of a text without its base indent, row by row.
fn put_aligned(to: &mut Gathered, text: &str, runs: &[Run], base: usize) -> Result<(), AllocError>
    requires runs { AreRuns runs.now (length (chars text.now)) }
    requires small { length (chars text.now) < 2 ^ 63 }
    ensures { OnOk result (to.new ≡ to.old ++ spec.left_aligned base base (placed (origin_at runs.now) 0 (chars text.now))) }
{
    let mut rest = text;
    let mut at = 0usize;
    'rows: loop {
        let (gone, kept) = without_indent(rest, base);
        let (row, count, behind) = first_row(kept);
        if count == 0 {
            return Ok(());
        }
        put_row(to, row, count, runs, at + gone)?;
        at += gone + count;
        rest = behind;
    }
}
