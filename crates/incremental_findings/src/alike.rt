//! Lines that say the same of blocks, of two texts that differ in a part alone.

ghost use Rattle.std.specs.Prelude.{◌≡◌, ◌≤◌, ◌+◌, ◌⊎◌, IsTrue};
ghost use Rattle.abnf_syntax.specs.Blocks.{base_indent};
ghost use Rattle.incremental_findings.specs.own.Parts.{HasTokens, IsDifference};
ghost use Rattle.incremental_findings.specs.own.Walks as spec;

use crate::difference::Difference;
use crate::walk::say_the_same;
use abnf_syntax::Sheet;

/// Some lines of a text: the first of them, and the line behind them.
#[derive(Clone, Copy)]
pub struct Lines {
    pub from: usize,
    pub to: usize,
}

/// The lines of a part among some lines: the first of them, and the line behind them.
pub fn among(from: usize, to: usize, front: usize, back: usize) -> (usize, usize)
    requires { from ≤ to }
    ensures order { (from ≤ result.0) × (result.0 ≤ result.1) × (result.1 ≤ to) }
    ensures front { (result.0 ≤ front) ⊎ (result.0 ≡ from) }
    ensures back { (back ≤ result.1) ⊎ (result.1 ≡ to) }
{
    let first = from.max(front).min(to);
    (first, to.min(back).max(first))
}

/// Whether so many lines of one text are as many of another one, which begin at the same line if there are any.
fn begin_alike(from: usize, first: usize, there: usize, first_there: usize) -> bool
    requires { (from ≤ first) × (there ≤ first_there) }
    ensures { IsTrue result → (first + there ≡ first_there + from) × ((from ≡ there) ⊎ (from ≡ first)) }
{
    first - from == first_there - there && (from == there || from == first)
}

impl Difference {
    /// Whether so many lines of our text are as many of the other one, and begin as far behind the part if there are any.
    fn end_alike(&self, last: usize, to: usize, last_there: usize, end: usize) -> bool
        requires order { (last ≤ to) × (last_there ≤ end) }
        requires behind { ((self.now.old ≤ last) ⊎ (last ≡ to)) × ((self.now.new ≤ last_there) ⊎ (last_there ≡ end)) }
        ensures { IsTrue result → (to + last_there ≡ end + last) × ((last + self.now.new ≡ last_there + self.now.old) ⊎ (last ≡ to)) }
    {
        to - last == end - last_there && (last == to || last - self.old == last_there - self.new)
    }

    /// Whether some lines of our text say the same of blocks as some lines of the other text, where the texts differ in this part alone.
    /// Only the part's lines are looked at: others are the same in both if they stand at places that belong together.
    pub fn say_the_same(&self, ours: &Sheet, here: Lines, theirs: &Sheet, there: Lines) -> bool
        requires part { IsDifference ours.now theirs.now self.now }
        requires base { base_indent ours.now ≡ base_indent theirs.now }
        requires tokens { HasTokens ours.now }
        requires ours { here.from ≤ here.to }
        requires theirs { there.from ≤ there.to }
        ensures { IsTrue result → spec.SayTheSame ours.now here.from here.to theirs.now there.from there.to }
    {
        let (first, last) = among(here.from, here.to, self.front, self.old);
        let (first_there, last_there) = among(there.from, there.to, self.front, self.new);
        begin_alike(here.from, first, there.from, first_there)
            && self.end_alike(last, here.to, last_there, there.to)
            && say_the_same(ours, first, last, theirs, first_there, last_there)
    }
}
