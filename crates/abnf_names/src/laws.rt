//! Laws of grammars.

ghost use Rattle.std.specs.Prelude.{◌≡◌, ◌<◌, ◌^◌, ℕ, List, length};
ghost use Rattle.abnf_names.specs.Places.{Ascend};
ghost use Rattle.abnf_names.specs.Rules.{Grammar, IsGrammar};

/// A text has at most one grammar: its blocks, the items in them, and the rule that each says or the fault that it shows can be
/// read in one way only.
pub fn grammars_are_unique()
    ensures { (g h : Grammar) → IsGrammar g → IsGrammar h → g.text ≡ h.text → g ≡ h }
{}

/// Each text of fewer than 2^62 characters has a grammar, and so each text of a document, which has at most 4,194,304
/// bytes.
pub fn grammars_exist()
    ensures { (text : List ℕ) → length text < 2 ^ 62 → (g : Grammar) × (g.text ≡ text) × IsGrammar g }
{}

/// The places of names in a text stand in its order: each begins before all that follow it, so that no two begin at one byte.
pub fn places_ascend()
    ensures { (g : Grammar) → IsGrammar g → Ascend g.places }
{}
