//! What a granted rename changes in a grammar, and what it keeps.
//!
//! A rename puts a new name in the place of an old one, wherever that stands as a name. It is granted where the new text is a name, the
//! text defines the old name, and the new one is no name of the text and no core rule's, unless it is the old one in another case. The
//! renamed text then has the same grammar but for one name, as [`grammars_are_kept`] says:
//!
//! - The rules are the same, in the same order. One of them has the new name: that for which the old one stood. In the trees nothing is
//!   changed but the name in each reference to this rule.
//! - Each rule generates the same strings, and leads to prose or to a faulty block exactly where it did, the renamed one under its new
//!   name.
//! - The places of names are the same, in the same order and with the same definitions among them, the new text at those of the old name.
//!
//! A rule is known by its number and not by its name. For where a text defines a core rule for itself (say `DIGIT`), and needs another
//! one that uses it (`HEXDIG`), its grammar has two rules of that name: the text's own, and the core rule, of which `HEXDIG` speaks. A
//! rename of the text's own leaves the core rule its name. So nothing is claimed of what the old name stands for afterwards: there it is
//! the core rule, and in most other texts nothing.
//!
//! Each line of the renamed text has the tokens of the line as it was, but for the name. Of a single line this is a law of `abnf_token`
//! (`renames_keep_tokens`). [`renames_keep_grammars`] says all of this of the text after the edits, which is found by writing the new text
//! into each range, from the last to the first: so the ranges that a client is sent are enough, and no line comes or goes by them.
//! Whoever makes the edits one after another in that order, as `ls_text` applies those that it is given, has just this text.
//!
//! It is said of each grammar of the renamed text. A text has no more than one, and has one if its lines have fewer than 2^64 bytes, as
//! `abnf_names` shows. There is no code here.
#![tactic(auto)]

ghost use Rattle.std.specs.Prelude.{ℕ, List, All};
ghost use Rattle.std.specs.Char.{IsScalar};
ghost use Rattle.ls_text.specs.declared.position.Encoding.{Encoding};
ghost use Rattle.abnf_token.specs.Classes.{Text};
ghost use Rattle.abnf_syntax.specs.Blocks.{line_texts};
ghost use Rattle.abnf_parts.specs.Names.{Name};
ghost use Rattle.abnf_parts.specs.Part.{Part};
ghost use Rattle.abnf_names.specs.Rules.{Grammar, IsGrammar};
ghost use Rattle.abnf_rename.specs.Lines.{AreRenamedLines};
ghost use Rattle.abnf_rename.specs.Parts.{renamed_part, renamed_rules, KeepsMeaning};
ghost use Rattle.abnf_rename.specs.Rules.{IsGranted, AreSameRules, KeepsNames};
ghost use Rattle.abnf_rename.specs.Text.{name_ranges, KeepsTheGrammar};

/// Trees that are the same but for the name in the references to one rule generate the same strings, with as many nested references,
/// and the same rules lead to an opaque part. This holds of all trees, whatever text they are of.
pub fn meaning_is_kept()
    ensures { (rule : ℕ) (new : List ℕ) (rules : List Part) → KeepsMeaning rules (renamed_rules rule new rules) (renamed_part rule new) }
{}

/// The grammar of a text, where a rename of the old name is granted, and a grammar of the text in which each line has the new name at
/// the places of the old one: the rules are the same but for that name, and each name generates the same strings and leads to an opaque
/// part where it did, the old one as the new one.
///
/// Each name but the new one is meant, which stood for nothing before, unless it is the old one.
pub fn grammars_are_kept()
    ensures { (old : Name) (new : Text) (before after : Grammar) → IsGrammar before → IsGrammar after → IsGranted old new before →
        AreRenamedLines old new (line_texts before.text) (line_texts after.text) →
        AreSameRules old new before after × KeepsNames old new before after }
{}

/// The whole of it, for the text after the edits of a granted rename, which write the new text in the range of each place
/// of the old name. The edits give it, made one after another from the last range to the first, wherever no text on the
/// way is too large. Its lines are those of the text with the new text at the places of the old name, its tokens those of
/// these lines, and each grammar of it has the same rules but for that name, as [`grammars_are_kept`] says.
///
/// What a position counts within its line may be any of the encodings on which client and server agree. A text is made of
/// Unicode scalar values, as every document is.
pub fn renames_keep_grammars()
    ensures { (encoding : Encoding) (old : Name) (new : Text) (before : Grammar) → IsGrammar before → All IsScalar before.text → IsGranted old new before →
        KeepsTheGrammar encoding old new before (name_ranges encoding before old) }
{}
