//! Runs of characters that stand in a row in a draft.

ghost use Rattle.std.specs.Prelude.{◌≡◌, ℕ, ◌+◌, ◌-◌, ◌^◌, ◌<◌, ◌≤◌, ◌∷◌, IfSome, OnOk, length, slice_index_or};
ghost use Rattle.std.specs.List.Sorted.{IsNonDecreasingBy};
ghost use Rattle.origins.specs.own.Runs.{AreRuns, FindsPlace, FindsWithin, origin_at, origin_by, run_at, first_run};

use std::alloc::AllocError;

// No text that fits into memory has such an offset.
const NO_OFFSET: usize = 0x8000_0000_0000_0000;

// A run of characters that stand in a row in the draft as they do here.
#[derive(Clone, Copy)]
pub struct Run {
    // How many characters come before it here.
    pub begins: usize,
    // How many characters come before it in the draft.
    pub origin: usize,
}

// What stands before any run.
const START: Run = Run {
    begins: 0,
    origin: 0,
};

impl Run {
    // Where a character begins in the draft, if the run goes on up to it.
    pub fn origin_of(self, offset: usize) -> usize
        requires from { self.begins ≤ offset }
        requires fits { origin_by self offset < 2 ^ 64 }
        ensures { result ≡ origin_by self offset }
    {
        self.origin + (offset - self.begins)
    }

    // The place of the character that begins at an offset of the draft, if the run, up to `end`, has one.
    fn place_of(self, origin: usize, end: usize) -> Option<usize>
        requires { self.begins ≤ end }
        ensures { FindsWithin (origin_by self) origin self.begins end result }
    {
        if origin >= self.origin && origin - self.origin < end - self.begins {
            Some(self.begins + (origin - self.origin))
        } else {
            None
        }
    }
}

// The last of the first `count` runs.
fn last_of(runs: &[Run], count: usize) -> Run
    requires { count ≤ length runs.now }
    ensures { result ≡ slice_index_or (first_run ∷ runs.now) count first_run }
{
    if count == 0 { START } else { runs[count - 1] }
}

// The run of a character.
pub fn run_of(runs: &[Run], offset: usize) -> Run
    requires ordered { IsNonDecreasingBy (λ r. r.begins) runs.now }
    ensures { result ≡ run_at first_run runs.now offset }
{
    last_of(runs, runs.partition_point(|run| run.begins <= offset))
}

// The run of so many characters from one on, if they are all of one.
pub fn run_of_all(runs: &[Run], offset: usize, count: usize) -> Option<Run>
    requires ordered { IsNonDecreasingBy (λ r. r.begins) runs.now }
    requires fits { offset + count < 2 ^ 64 }
    ensures { IfSome result (λ run. (0 < count) × ((k : ℕ) → k < count → run_at first_run runs.now (offset + k) ≡ run)) }
{
    if count == 0 {
        return None;
    }
    let end = offset + count - 1;
    let first = runs.partition_point(|run| run.begins <= offset);
    let last = runs.partition_point(|run| run.begins <= end);
    if first == last {
        Some(last_of(runs, first))
    } else {
        None
    }
}

// The place of the first of so many characters that begins at an offset of the draft.
pub fn place_in(runs: &[Run], count: usize, origin: usize) -> Option<usize>
    requires { AreRuns runs.now count }
    ensures { FindsPlace (origin_at runs.now) origin count result }
{
    let mut run = START;
    'runs: for next in runs {
        if let Some(place) = run.place_of(origin, next.begins) {
            return Some(place);
        }
        run = *next;
    }
    run.place_of(origin, count)
}

// Says of what comes behind so many characters that it stands in the draft from an offset on. It makes no run where the last one goes on.
pub fn continue_at(runs: &mut Vec<Run>, count: usize, at: usize) -> Result<(), AllocError>
    requires runs { AreRuns runs.old.items count }
    requires small { count < 2 ^ 63 }
    ensures runs { AreRuns runs.new.items count }
    ensures before { (k : ℕ) → k < count → origin_at runs.new.items k ≡ origin_at runs.old.items k }
    ensures behind { OnOk result ((k : ℕ) → origin_at runs.new.items (count + k) ≡ at + k) }
{
    if at >= NO_OFFSET {
        return Err(AllocError);
    }
    let last = last_of(runs, runs.len());
    if last.origin_of(count) != at {
        runs.push(Run {
            begins: count,
            origin: at,
        })?;
    }
    Ok(())
}
