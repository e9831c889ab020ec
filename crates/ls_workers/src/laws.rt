//! Laws of who waits.
ghost use Rattle.std.specs.Prelude.{◌≡◌, ℕ, true, false, Bool, List, None, Option, slice_index_or};
ghost use Rattle.ls_desk.specs.Stands.{Seen};
ghost use Rattle.ls_workers.specs.Ends.{IsFirstWaiting, has_job, has_job_for};
ghost use Rattle.ls_history.specs.declared.history_entry.Stop.{Stop};

/// Where a job is queued, or the board has ended, and some worker waits, the one with the least number is let go. Until the board has ended
/// no other is.
pub fn first_waiting_is_let_go()
    ensures first { (stop : Option Stop) (desk : Seen) (idle : List Bool) (k : ℕ) → has_job stop desk ≡ true → slice_index_or idle k false ≡ true
        → (number : ℕ) × IsFirstWaiting idle number × (has_job_for stop desk idle number ≡ true) }
    ensures alone { (desk : Seen) (idle : List Bool) (number : ℕ) → has_job_for None desk idle number ≡ true → IsFirstWaiting idle number }
{}
