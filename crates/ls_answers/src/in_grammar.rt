//! Questions about a grammar.
ghost use Rattle.std.specs.Prelude.{◌≡◌, IfOk, List, Ok, false, ℕ};
ghost use Rattle.std.specs.Arc.{arc_value};
ghost use Rattle.abnf_token.specs.Classes as classes;
ghost use Rattle.ls_answers.specs.InGrammars.{IsAnswerInGrammar};
ghost use Rattle.ls_answers.specs.Asks.{IsToNoName};
ghost use Rattle.ls_answers.specs.own.Asked.{IsToAName, as_ask};

use crate::answer::{Answer, RenameFault};
use crate::ask::Ask;
use crate::diagnostics::diagnostics;
use crate::hovers::hover;
use crate::insertion::insertion;
use crate::outline::symbols;
use crate::places::{definitions, references};
use crate::rename::{is_name, rename};
use crate::semantic_tokens::semantic_tokens;
use abnf_names::Grammar;
use incremental_findings::Recent;
use ls_lists::Text;
use ls_text::{Encoding, Position, Range, Snapshot};
use std::alloc::{AllocError as Memory, Global};
use std::sync::Arc;

/// A question that is asked of a text's grammar. All others need no rules, but for the findings, which may be known by those of another
/// text.
#[derive(Clone, Copy)]
enum GrammarAsk<'a> {
    Hover(Position),
    Rename(Position, &'a Text),
    Action(Range),
    Tokens,
}

/// The answer to a question about a grammar. An outline and the places of a name need no rules, nor does a new name that is none; all
/// else is asked of the text's grammar.
pub(crate) fn answer_in_grammar(
    alloc: Global,
    recent: &mut Recent,
    snapshot: &Arc<Snapshot>,
    encoding: Encoding,
    ask: &Ask,
) -> Result<Answer, Memory>
    ensures answer { IfOk result (λ answer. IsAnswerInGrammar encoding (arc_value snapshot.now) ask.now answer) }
    ensures not_a_name { IsToNoName ask.now → result ≡ Ok (Answer.Refused RenameFault.NotAName) }
{
    match ask {
        Ask::Symbols => Ok(Answer::Symbols(symbols(alloc, snapshot, encoding)?)),
        Ask::Definition(at) => Ok(Answer::Places(definitions(alloc, snapshot, *at, encoding)?)),
        Ask::References(at, declarations) => Ok(Answer::Places(references(
            alloc,
            snapshot,
            *at,
            encoding,
            *declarations,
        )?)),
        Ask::Rename(at, new) => {
            if !is_name(new.as_str()) {
                return Ok(not_a_name(snapshot));
            }
            by_grammar(alloc, snapshot, encoding, GrammarAsk::Rename(*at, new))
        }
        Ask::Hover(at) => by_grammar(alloc, snapshot, encoding, GrammarAsk::Hover(*at)),
        Ask::Action(range) => by_grammar(alloc, snapshot, encoding, GrammarAsk::Action(*range)),
        Ask::Tokens => by_grammar(alloc, snapshot, encoding, GrammarAsk::Tokens),
        Ask::Diagnose => Ok(Answer::Findings(diagnostics(alloc, recent, snapshot, encoding)?)),
    }
}

/// What is answered to a rename whose new text is no name.
fn not_a_name(snapshot: &Snapshot) -> Answer
    ensures value { result ≡ Answer.Refused RenameFault.NotAName }
    ensures answer { (encoding : Encoding) (at : Position) (new : List ℕ) → classes.is_name new ≡ false
        → IsAnswerInGrammar encoding snapshot.now (Ask.Rename at new) result }
{
    let _count = snapshot.char_count();
    Answer::Refused(RenameFault::NotAName)
}

/// The answer by the grammar of the text, which is made once and let go here. A rename must be to a name.
fn by_grammar(
    alloc: Global,
    snapshot: &Snapshot,
    encoding: Encoding,
    ask: GrammarAsk<'_>,
) -> Result<Answer, Memory>
    requires { IsToAName ask }
    ensures { IfOk result (λ answer. IsAnswerInGrammar encoding snapshot.now (as_ask ask.entry) answer) }
{
    let grammar = Grammar::of(alloc, snapshot)?;
    let answer = answer_in(alloc, &grammar, encoding, ask);
    drop(grammar);
    answer
}

/// The answer to a question about the text of a grammar. A rename must be to a name.
fn answer_in(
    alloc: Global,
    grammar: &Grammar,
    encoding: Encoding,
    ask: GrammarAsk<'_>,
) -> Result<Answer, Memory>
    requires { IsToAName ask }
    ensures { IfOk result (λ answer. IsAnswerInGrammar encoding grammar.now.text (as_ask ask.entry) answer) }
{
    match ask {
        GrammarAsk::Hover(at) => Ok(Answer::Hover(hover(alloc, grammar, at, encoding)?)),
        GrammarAsk::Rename(at, new) => rename(alloc, grammar, at, encoding, new),
        GrammarAsk::Action(range) => {
            Ok(Answer::Insert(insertion(alloc, grammar, range, encoding)?))
        }
        GrammarAsk::Tokens => Ok(Answer::Numbers(semantic_tokens(alloc, grammar, encoding)?)),
    }
}
