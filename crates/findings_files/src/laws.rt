//! Laws of what is read and printed of files. The functions do nothing.

ghost use Rattle.std.specs.Prelude.{◌≡◌, ◌<◌, ◌^◌, ◌∷◌, [], List, Result, ℕ, length};
ghost use Rattle.origins.specs.Origins.{Sourced, characters};
ghost use Rattle.joined_grammars.specs.Joined.{IsJoined};
ghost use Rattle.xml_blocks.specs.declared.fault.XmlFault.{XmlFault};
ghost use Rattle.findings_text.specs.Gaps.{IsFilled};
ghost use Rattle.findings_text.specs.declared.print.Printed.{Printed};
ghost use Rattle.findings_files.specs.Contents.{HasSmallBlocks, IsContentIn};
ghost use Rattle.findings_files.specs.Grammars.{HasSmallRuns, IsPrintedGrammarAs};
ghost use Rattle.findings_files.specs.Known.{ArePrintedRulesOf, ArePrintedRulesWith, IsPrintedContent, IsPrintedWith};
ghost use Rattle.findings_files.specs.declared.content.Content.{Content};
ghost use Rattle.findings_files.specs.declared.format.Format.{Format};

/// Something is read of each file of each format, where each block that nothing marks, and each run of lines, has fewer than 2^62
/// characters, as in each text of a file.
pub fn contents_exist()
    ensures { (format : Format) (text : List ℕ) → HasSmallBlocks format text → (read : Result Content XmlFault) × IsContentIn format text read }
{}

/// At most one such thing is read of a file.
pub fn contents_are_unique()
    ensures { (format : Format) (text : List ℕ) (a b : Result Content XmlFault) → IsContentIn format text a → IsContentIn format text b → a ≡ b }
{}

/// For each file name, format and content there is a print-out, where no other file is known, and the text and the grammar have fewer
/// than 2^62 characters each.
pub fn prints_exist()
    ensures { (format : Format) (file text : List ℕ) (content : Content) → length text < 2 ^ 62 → length content.grammar < 2 ^ 62
        → (printed : Printed) × IsPrintedContent [] format file text content printed }
{}

/// For each file name, format and content there is a print-out, where the text has fewer than 2^62 characters, and so has the text that is
/// joined of the grammar and the known ones, with its gaps filled.
pub fn joined_prints_exist()
    ensures { (k : List ℕ) (known : List (List ℕ)) (format : Format) (file text : List ℕ) (content : Content) (joined filled : List ℕ) → length text < 2 ^ 62
        → IsJoined (characters content.grammar) (k ∷ known) joined → IsFilled (characters content.grammar) joined filled → length filled < 2 ^ 62
        → (printed : Printed) × IsPrintedContent (k ∷ known) format file text content printed }
{}

/// A file of each format has at most one print-out, whatever other files are known.
pub fn prints_are_unique()
    ensures { (known : List (List ℕ)) (format : Format) (file text : List ℕ) (a b : Printed) → IsPrintedWith known format file text a → IsPrintedWith known format file text b → a ≡ b }
{}

/// For each file name, format and grammar there is a print-out of the rules, where the text that is joined of the grammar and the known
/// ones has fewer than 2^62 characters.
pub fn joined_rule_prints_exist()
    ensures { (k : List ℕ) (known : List (List ℕ)) (format : Format) (file text : List ℕ) (grammar : List Sourced) (joined : List ℕ)
        → IsJoined (characters grammar) (k ∷ known) joined → length joined < 2 ^ 62
        → (lines : List ℕ) × ArePrintedRulesOf (k ∷ known) format file text grammar lines }
{}

/// A file of each format has at most one print-out of its rules, whatever other files are known.
pub fn rule_prints_are_unique()
    ensures { (known : List (List ℕ)) (format : Format) (file text : List ℕ) (a b : Printed) → ArePrintedRulesWith known format file text a → ArePrintedRulesWith known format file text b → a ≡ b }
{}

/// A file of each format has a print-out of its grammar, where each run of a published text has fewer than 2^62 characters.
pub fn printed_grammars_exist()
    ensures { (format : Format) (file text : List ℕ) → HasSmallRuns format text → (printed : Printed) × IsPrintedGrammarAs format file text printed }
{}

/// A file of each format has at most one print-out of its grammar.
pub fn printed_grammars_are_unique()
    ensures { (format : Format) (file text : List ℕ) (a b : Printed) → IsPrintedGrammarAs format file text a → IsPrintedGrammarAs format file text b → a ≡ b }
{}
