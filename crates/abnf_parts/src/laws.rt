//! Worked rules: what they generate, computed by the check. The functions do nothing.

ghost use Rattle.std.specs.Prelude.{◌≡◌, ◌↔◌, List, ℕ, Option, None, [], ◌∷◌, All, map, codes, true, false};
ghost use Rattle.abnf_token.specs.Classes.{Text};
ghost use Rattle.abnf_syntax.specs.declared.item.Item.{Item};
ghost use Rattle.abnf_syntax.specs.declared.tree.Rule.{Rule};
ghost use Rattle.abnf_syntax.specs.Grammar.{Derives, max_nesting};
ghost use Rattle.abnf_syntax.specs.Items.{AreItems};
ghost use Rattle.abnf_parts.specs.Part.{Part, quoted, rep, ref, opaque};
ghost use Rattle.abnf_parts.specs.Tree.{alternatives, concatenation_part, tree_ending};
ghost use Rattle.abnf_parts.specs.Generates.{Generates, IsLeastLength, IsLeastPair};
ghost use Rattle.abnf_parts.specs.Uncut.{IsUncut};
ghost use Rattle.abnf_parts.specs.own.Rows as row;

/// Quoted texts match in either case, and exact ones as they are written (RFC 7405 section 2.1).
pub fn texts()
    ensures either_case { Generates [] (quoted (codes "ab") false) (codes "aB") }
    ensures exact { Generates [] (quoted (codes "ab") true) (codes "ab") }
    ensures not_other_case { Generates [] (quoted (codes "ab") true) (codes "aB") → ⊥ }
{}

/// The least lengths of what rules generate, and the least numbers of nested references for these.
pub fn least_values()
    ensures text { IsLeastPair (row.a_text ∷ []) row.a_text 1 0 }
    ensures itself { IsLeastPair (row.itself_or_empty ∷ []) row.itself_or_empty 0 0 }
    ensures other { IsLeastPair (row.other_or_text ∷ row.first_rule ∷ []) row.other_or_text 1 0 }
    ensures by_other { IsLeastPair (row.other_or_text ∷ row.first_rule ∷ []) row.first_rule 1 1 }
    ensures series { IsLeastPair (row.text_and_series ∷ []) row.text_and_series 3 0 }
{}

/// Rules that generate nothing: those that never end, those without a number of repetitions, and those without a character.
pub fn no_strings()
    ensures endless { (s : List ℕ) → Generates (row.other_and_text ∷ row.first_rule ∷ []) row.other_and_text s → ⊥ }
    ensures by_endless { (s : List ℕ) → Generates (row.other_and_text ∷ row.first_rule ∷ []) row.first_rule s → ⊥ }
    ensures turned { (s : List ℕ) → Generates (row.turned_bounds ∷ []) row.turned_bounds s → ⊥ }
{}

/// A name that stands for no rule generates nothing, and so does what is opaque: prose, and a faulty block. Repeated zero
/// times or more, such a name generates the empty string alone.
pub fn unknown_parts()
    ensures undefined { (roots : List Part) (name s : List ℕ) → Generates roots (ref name None) s → ⊥ }
    ensures opaque { (roots : List Part) (s : List ℕ) → Generates roots opaque s → ⊥ }
    ensures repeated { (roots : List Part) (name s : List ℕ) → Generates roots (rep 0 None (ref name None)) s ↔ (s ≡ []) }
{}

/// The length of a least value is the least length.
pub fn least_lengths()
    ensures { (roots : List Part) (p : Part) (n k : ℕ) → IsLeastPair roots p n k → IsLeastLength roots p n }
{}

/// In a rule that items derive no bracket is reached at which the tree ends, whatever stands there.
pub fn nesting_suffices()
    ensures { (items : List Item) (rule : Rule) (number : List ℕ → Option ℕ) (last : Part) → Derives items rule
        → map (concatenation_part number (tree_ending last number max_nesting)) rule.body ≡ alternatives number rule.body }
{}

/// In a rule that the items of lines derive no number is cut: each is the value of its digits, however many there are.
pub fn numbers_are_uncut()
    ensures { (lines : List Text) (first end : ℕ) (items : List Item) (rule : Rule) → AreItems lines first end items → Derives items rule
        → All (λ item. IsUncut item.token.kind item.token.text.now) items }
{}
