//! Laws of joined grammars, and of definitions that repeat others. The functions do nothing.

ghost use Rattle.std.specs.Prelude.{◌≡◌, ◌<◌, ◌^◌, ℕ, All, List, length};
ghost use Rattle.joined_grammars.specs.Joined.{IsJoined};
ghost use Rattle.joined_grammars.specs.Repeats.{AreRepeats};
ghost use Rattle.joined_grammars.specs.declared.repeats.Repeat.{Repeat};

/// For each text and other texts, of fewer than 2^62 characters each, there is a joined grammar.
pub fn joined_texts_exist()
    ensures { (told : List ℕ) (others : List (List ℕ)) → length told < 2 ^ 62 → All (λ other. length other < 2 ^ 62) others
        → (text : List ℕ) × IsJoined told others text }
{}

/// Of a text and other texts there is at most one joined grammar.
pub fn joined_texts_are_unique()
    ensures { (told : List ℕ) (others : List (List ℕ)) (a b : List ℕ) → IsJoined told others a → IsJoined told others b → a ≡ b }
{}

/// Each text of fewer than 2^62 characters has a list of the definitions that repeat earlier ones.
pub fn repeats_exist()
    ensures { (text : List ℕ) → length text < 2 ^ 62 → (found : List Repeat) × AreRepeats text found }
{}

/// A text has at most one such list.
pub fn repeats_are_unique()
    ensures { (text : List ℕ) (a b : List Repeat) → AreRepeats text a → AreRepeats text b → a ≡ b }
{}
