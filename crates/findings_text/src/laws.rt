//! Laws of what is printed of texts. The functions do nothing.

ghost use Rattle.std.specs.Prelude.{◌≡◌, ◌<◌, ◌^◌, [], ◌∷◌, List, ℕ, filter, find, length, nat_eq};
ghost use Rattle.std.specs.Option.{option_map_or};
ghost use Rattle.abnf_parts.specs.Names.{Name};
ghost use Rattle.abnf_names.specs.Places.{Named};
ghost use Rattle.findings_text.specs.Gaps.{IsFilled};
ghost use Rattle.findings_text.specs.Print.{IsPrinted};
ghost use Rattle.findings_text.specs.Rules.{ArePrintedRules, defines_rule, heads};
ghost use Rattle.findings_text.specs.declared.print.Printed.{Printed};

/// For each file name there is a print-out of each text of fewer than 2^62 characters, and so of each text of a file, which has at most
/// 4,194,304 bytes.
pub fn printed_texts_exist()
    ensures { (file text : List ℕ) → length text < 2 ^ 62 → (printed : Printed) × IsPrinted file text printed }
{}

/// A text has at most one print-out.
pub fn printed_texts_are_unique()
    ensures { (file text : List ℕ) (a b : Printed) → IsPrinted file text a → IsPrinted file text b → a ≡ b }
{}

/// For each file name there is a print-out of the rules of each text of fewer than 2^62 characters.
pub fn printed_rules_exist()
    ensures { (file text : List ℕ) → length text < 2 ^ 62 → (lines : List ℕ) × ArePrintedRules file text lines }
{}

/// A text has at most one print-out of its rules, whatever certificate their lengths are found by.
pub fn printed_rules_are_unique()
    ensures { (file text a b : List ℕ) → ArePrintedRules file text a → ArePrintedRules file text b → a ≡ b }
{}

/// Of the places of names each rule has one head, the first that defines it, and none where no place does.
pub fn heads_are_first()
    ensures { (names : List Name) (places : List Named) (r : ℕ)
        → filter (λ head. nat_eq r head.1) (heads names places) ≡ option_map_or (λ n. (n, r) ∷ []) (find (defines_rule names r) places) [] }
{}

/// For each grammar at the front of a text of fewer than 2^62 characters there is the text with its gaps filled.
pub fn filled_texts_exist()
    ensures { (told text : List ℕ) → length text < 2 ^ 62 → (filled : List ℕ) × IsFilled told text filled }
{}

/// It is filled in one way only.
pub fn filled_texts_are_unique()
    ensures { (told text a b : List ℕ) → IsFilled told text a → IsFilled told text b → a ≡ b }
{}
