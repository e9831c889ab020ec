//! Laws of runs by acts, and of sessions that are served plainly: one message after the other.
ghost use Rattle.std.specs.Prelude.{◌≡◌, false, Bool, List, ℕ};
ghost use Rattle.ls_steps.specs.Comes.{RunsHaveEvents};
ghost use Rattle.ls_steps.specs.Runs.{Act, Going, Runs, begun};
ghost use Rattle.ls_steps.specs.Plain.{AreServing, Says};

/// What is said on messages is what a run by the acts of the plain schedule writes, and it leaves the same session.
pub fn sessions_are_runs()
    ensures { (may_fail : Bool) (g h : Going) (bodies : List (List ℕ)) (bytes : List ℕ) → Says may_fail g bodies h bytes
        → (acts : List Act) × AreServing bodies acts × Runs may_fail g acts h bytes }
{}

/// On a list of messages no two things can be said, byte for byte, by the plain schedule, where no memory is refused in a job.
pub fn sessions_are_unique()
    ensures { (g h k : Going) (bodies : List (List ℕ)) (bytes other : List ℕ) → Says false g bodies h bytes → Says false g bodies k other
        → (h ≡ k) × (bytes ≡ other) }
{}

/// On each list of messages something is said by the plain schedule, where no memory is refused in a job.
pub fn sessions_exist()
    ensures { (bodies : List (List ℕ)) → (h : Going) × (bytes : List ℕ) × Says false begun bodies h bytes }
{}

/// By a list of acts no two things can be written where no memory is refused in a job.
pub fn runs_are_unique()
    ensures { (g h k : Going) (acts : List Act) (bytes other : List ℕ) → Runs false g acts h bytes → Runs false g acts k other
        → (h ≡ k) × (bytes ≡ other) }
{}

/// Each list of acts is a run from the beginning, where no memory is refused in a job.
pub fn runs_exist()
    ensures { (acts : List Act) → (h : Going) × (bytes : List ℕ) × Runs false begun acts h bytes }
{}

/// The desk of a run has come about by events, one after the other. They end with its journal, and those before it lead to its base.
pub fn runs_have_events()
    ensures { RunsHaveEvents }
{}
