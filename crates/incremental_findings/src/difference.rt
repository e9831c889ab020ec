//! The part in which two texts differ.

ghost use Rattle.std.specs.Prelude.{◌≢◌, ◌≤◌, ◌<◌, ◌^◌, ◌↔◌, IfNone, IfSome, IsTrue, length};
ghost use Rattle.abnf_syntax.specs.Blocks.{IsSeam, base_indent};
ghost use Rattle.abnf_digests.specs.Replaced.{AreReplaced};
ghost use Rattle.incremental_findings.specs.own.Parts as spec;

use abnf_syntax::Sheet;
use findings_index::BlockDigest;

/// Lines of a text, and those that stand in their place in another one.
#[derive(Clone, Copy)]
pub struct Difference {
    /// The first line of either text.
    pub front: usize,
    /// The line behind them.
    pub old: usize,
    /// The line behind those in their place.
    pub new: usize,
}

/// How two texts differ.
#[derive(Clone, Copy)]
pub struct Change {
    /// The lines that differ: those before and behind them are the same.
    pub lines: Difference,
    /// These with lines before and behind them, up to places over which no block goes in either text.
    pub blocks: Difference,
}

/// How many lines at the front of both texts are the same.
fn same_front(ours: &Sheet, theirs: &Sheet) -> usize
    ensures { spec.IsFront ours.now theirs.now result }
{
    let most = ours.count().min(theirs.count());
    let mut front = ours.same_front(theirs);
    while front < most && ours.line(front) == theirs.line(front) {
        front += 1;
    }
    front
}

/// The part behind these lines at the front, up to lines that are the same to the end.
fn up_to_back(ours: &Sheet, theirs: &Sheet, front: usize) -> Difference
    requires { spec.IsFront ours.now theirs.now front }
    ensures { spec.IsDifference ours.now theirs.now result }
{
    let most = ours.count().min(theirs.count()) - front;
    let back = ours.same_back(theirs, most);
    let mut old = ours.count() - back;
    let mut new = theirs.count() - back;
    while old > front && new > front && ours.line(old - 1) == theirs.line(new - 1) {
        old -= 1;
        new -= 1;
    }
    Difference { front, old, new }
}

/// Whether no block goes over a place of a text, nor over one of another.
fn are_seams(ours: &Sheet, at: usize, theirs: &Sheet, there: usize) -> bool
    requires here { spec.IsLineOrEnd ours.now at }
    requires there { spec.IsLineOrEnd theirs.now there }
    ensures seams { IsTrue result ↔ (IsSeam ours.now at × IsSeam theirs.now there) }
    ensures small { (length ours.now < 2 ^ 64) × (length theirs.now < 2 ^ 64) }
{
    let is_here = ours.is_seam(at);
    let is_there = theirs.is_seam(there);
    is_here && is_there
}

/// Where the last of some blocks begins that doesn't begin behind a line; the first line, where there is none.
fn start_before(blocks: &[BlockDigest], line: usize) -> usize
    ensures { result ≤ line }
{
    let count = blocks.partition_point(|block| block.first as usize <= line);
    if count == 0 {
        0
    } else {
        (blocks[count - 1].first as usize).min(line)
    }
}

/// Where the first of some blocks begins that doesn't begin before a line; behind so many lines, where there is none.
fn start_behind(blocks: &[BlockDigest], line: usize, count: usize) -> usize
    requires { line ≤ count }
    ensures { (line ≤ result) × (result ≤ count) }
{
    let place = blocks.partition_point(|block| (block.first as usize) < line);
    match blocks.get(place) {
        Some(block) => (block.first as usize).max(line).min(count),
        None => count,
    }
}

/// The same part from a place on over which no block goes: its own front, or that of the block there, if these are the blocks of our lines.
fn from_seams(ours: &Sheet, theirs: &Sheet, blocks: &[BlockDigest], part: Difference) -> Difference
    requires { spec.IsDifference ours.now theirs.now part }
    ensures part { spec.IsDifference ours.now theirs.now result }
    ensures fronts { IsSeam ours.now result.front × IsSeam theirs.now result.front }
{
    if are_seams(ours, part.front, theirs, part.front) {
        return part;
    }
    let start = start_before(blocks, part.front);
    Difference {
        front: if are_seams(ours, start, theirs, start) {
            start
        } else {
            0
        },
        old: part.old,
        new: part.new,
    }
}

/// The same part up to a place over which no block goes: its own end, or that of the block there, if these are the blocks of our lines.
fn to_seams(ours: &Sheet, theirs: &Sheet, blocks: &[BlockDigest], part: Difference) -> Difference
    requires part { spec.IsDifference ours.now theirs.now part }
    requires fronts { IsSeam ours.now part.front × IsSeam theirs.now part.front }
    ensures part { spec.IsDifference ours.now theirs.now result }
    ensures fronts { IsSeam ours.now result.front × IsSeam theirs.now result.front }
    ensures backs { IsSeam ours.now result.old × IsSeam theirs.now result.new }
{
    if are_seams(ours, part.old, theirs, part.new) {
        return part;
    }
    let (count, theirs_count) = (ours.count(), theirs.count());
    let old = start_behind(blocks, part.old, count);
    let new = old - part.old + part.new;
    if are_seams(ours, old, theirs, new) {
        Difference {
            front: part.front,
            old,
            new,
        }
    } else {
        Difference {
            front: part.front,
            old: count,
            new: theirs_count,
        }
    }
}

impl Change {
    /// How two texts differ; the lines up to whole blocks are few where these are the blocks of our lines. It isn't said where the indents of
    /// their blocks differ.
    pub fn between(ours: &Sheet, theirs: &Sheet, kept: &[BlockDigest]) -> Option<Change>
        ensures blocks { IfSome result (λ change. AreReplaced ours.now theirs.now change.blocks.front change.blocks.old change.blocks.new) }
        ensures lines { IfSome result (λ change. spec.IsDifference ours.now theirs.now change.lines) }
        ensures none { IfNone result (base_indent ours.now ≢ base_indent theirs.now) }
    {
        if ours.base() != theirs.base() {
            return None;
        }
        let lines = up_to_back(ours, theirs, same_front(ours, theirs));
        let blocks = from_seams(ours, theirs, kept, lines);
        let blocks = to_seams(ours, theirs, kept, blocks);
        Some(Change { lines, blocks })
    }
}
