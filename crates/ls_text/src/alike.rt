//! How many lines of two texts are the same, by whole chunks.

ghost use Rattle.std.specs.Prelude.{◌<◌, ◌≤◌, ◌^◌, length};
ghost use Rattle.std.specs.List.{flat_map};
ghost use Rattle.ls_text.specs.own.Alike.{IsSameFront, IsSameBack};
ghost use Rattle.ls_text.specs.own.Chunks.{lines_behind};

use crate::chunk::Chunk;
use std::sync::Arc;

// How many lines at the front are the same in two lists of chunks: those of the chunks that are the same, and of the first
// two that differ.
pub fn same_front(ours: &[Arc<Chunk>], theirs: &[Arc<Chunk>]) -> usize
    requires { length (flat_map lines_behind ours.now) < 2 ^ 64 }
    ensures { IsSameFront (flat_map lines_behind ours.now) (flat_map lines_behind theirs.now) result }
{
    let mut count = 0;
    for place in 0..ours.len().min(theirs.len()) {
        let our: &Chunk = &ours[place];
        let their: &Chunk = &theirs[place];
        let same = our.lines.same_front(&their.lines);
        count += same;
        if same < our.lines.len() || same < their.lines.len() {
            return count;
        }
    }
    count
}

// How many lines at the back are the same in two lists of chunks, at most so many: those of the chunks that are the same,
// and of the last two that differ.
pub fn same_back(ours: &[Arc<Chunk>], theirs: &[Arc<Chunk>], most: usize) -> usize
    ensures most { result ≤ most }
    ensures same { IsSameBack (flat_map lines_behind ours.now) (flat_map lines_behind theirs.now) result }
{
    let mut count = 0;
    for passed in 0..ours.len().min(theirs.len()) {
        let our: &Chunk = &ours[ours.len() - passed - 1];
        let their: &Chunk = &theirs[theirs.len() - passed - 1];
        let same = our.lines.same_back(&their.lines, most - count);
        count += same;
        if same < our.lines.len() || same < their.lines.len() {
            return count;
        }
    }
    count
}
