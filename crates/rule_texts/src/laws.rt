//! Laws of the numbers of blocks. The functions do nothing.

ghost use Rattle.std.specs.Prelude.{◌≡◌, ◌<◌, ◌^◌, ℕ, List, length};
ghost use Rattle.rule_texts.specs.Rules.{AreCounted};
ghost use Rattle.rule_texts.specs.declared.counts.Counts.{Counts};

/// Each text of fewer than 2^62 characters has numbers of blocks.
pub fn counts_exist()
    ensures { (text : List ℕ) → length text < 2 ^ 62 → (counts : Counts) × AreCounted text counts }
{}

/// A text has no others.
pub fn counts_are_unique()
    ensures { (text : List ℕ) (a b : Counts) → AreCounted text a → AreCounted text b → a ≡ b }
{}
