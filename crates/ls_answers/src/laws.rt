//! Laws of answers.
ghost use Rattle.std.specs.Prelude.{◌≡◌, ◌<◌, ◌^◌, All, List, ℕ, length};
ghost use Rattle.std.specs.Char.{IsScalar};
ghost use Rattle.ls_text.specs.declared.position.Encoding.{Encoding};
ghost use Rattle.ls_answers.specs.Answers.{IsAnswer, KeepsIfRenamed, without_cert};
ghost use Rattle.ls_answers.specs.Hover.{AtMostOneHoverText, HoverTextsExist};
ghost use Rattle.ls_answers.specs.declared.answer.Answer.{Answer};
ghost use Rattle.ls_answers.specs.declared.ask.Ask.{Ask};

/// A question about a text has at most one answer, but for the certificate beside an example, of which there may be several that are
/// accepted. It holds of texts of any size.
pub fn answers_are_unique()
    ensures { (encoding : Encoding) (text : List ℕ) (question : Ask) (a b : Answer) → IsAnswer encoding text question a → IsAnswer encoding text question b
        → without_cert a ≡ without_cert b }
{}

/// Each question about a text of fewer than 2^62 characters has an answer. A document has at most 4,194,304 bytes.
pub fn answers_exist()
    ensures { (encoding : Encoding) (text : List ℕ) (question : Ask) → length text < 2 ^ 62 → (a : Answer) × IsAnswer encoding text question a }
{}

/// A rename that is granted keeps the grammar: the text after its edits has the tokens of the text but at the places of the name, and each
/// grammar of it has the same rules but for that name, which generate the same strings. A text is made of Unicode scalar values, as every
/// document is.
///
/// The text after the edits is the text with the new name in each range of the answer, each read in the text as it was (`text_renamed`).
/// Edits made one after another, from the last to the first, give just that text (`EditsGive`), wherever no text on the way is over
/// 4,194,304 bytes. So a client that makes the edits, and a server that hears of them, have the text of which this law speaks.
pub fn renames_keep_the_grammar()
    ensures { (encoding : Encoding) (text : List ℕ) (question : Ask) (answer : Answer) → All IsScalar text → IsAnswer encoding text question answer
        → KeepsIfRenamed encoding text question answer }
{}

/// Of a rule, or of a name that stands for none, one text is shown at most, by whatever certificate it is found.
pub fn hover_texts_are_unique()
    ensures { AtMostOneHoverText }
{}

/// Of each rule of the grammar of a text, and of a name that stands for none, there is a text that is shown.
pub fn hover_texts_exist()
    ensures { HoverTextsExist }
{}
