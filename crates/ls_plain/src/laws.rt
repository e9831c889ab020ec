//! A law of whole inputs.
ghost use Rattle.std.specs.Prelude.{◌≡◌, false, List, ℕ};
ghost use Rattle.ls_plain.specs.Runs.{IsOutput};
ghost use Rattle.ls_session.specs.declared.turn.Status.{Status};

/// Each input has one output: where no device fails and no memory is refused, it settles the status and the bytes, to the last.
pub fn inputs_have_one_output()
    ensures some { (input : List ℕ) → (status : Status) × (bytes : List ℕ) × IsOutput false input status bytes }
    ensures one { (input : List ℕ) (status other : Status) (a b : List ℕ) → IsOutput false input status a → IsOutput false input other b
        → (status ≡ other) × (a ≡ b) }
{}
