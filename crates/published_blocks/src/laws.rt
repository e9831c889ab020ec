//! Laws of what is found in published texts. The functions do nothing.

ghost use Rattle.std.specs.Prelude.{◌≡◌, ◌<◌, ◌^◌, ℕ, All, List, length};
ghost use Rattle.published_blocks.specs.Published.{IsPublished};
ghost use Rattle.published_blocks.specs.Runs.{published_runs};
ghost use Rattle.published_blocks.specs.declared.found.Published.{Published};

/// Something is found in each text whose runs of lines have fewer than 2^62 characters each, and so in each text of a file.
pub fn published_grammars_exist()
    ensures { (text : List ℕ) → All (λ run. length run.block < 2 ^ 62) (published_runs text) → (found : Published) × IsPublished text found }
{}

/// At most one such thing is found in a text.
pub fn published_grammars_are_unique()
    ensures { (text : List ℕ) (a b : Published) → IsPublished text a → IsPublished text b → a ≡ b }
{}
