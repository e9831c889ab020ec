//! Questions about a draft.

ghost use Rattle.std.specs.Prelude.{◌≡◌, false, IfOk, List, Ok, ℕ};
ghost use Rattle.std.specs.Arc.{arc_value};
ghost use Rattle.abnf_token.specs.Classes as classes;
ghost use Rattle.ls_answers.specs.Asks.{IsToNoName};
ghost use Rattle.ls_answers.specs.InDrafts as spec;

use crate::answer::{Answer, DraftAnswer, RenameFault};
use crate::ask::Ask;
use crate::draft_diagnostics::draft_diagnostics;
use crate::draft_tokens::draft_tokens;
use crate::in_grammar::answer_in_grammar;
use crate::inward::{inward_ask, outside_answer};
use crate::outward::outward_answer;
use crate::recent::Recent;
use crate::rename::is_name;
use draft_grammars::{Format, SourceMap};
use ls_text::{Encoding, Position, Snapshot};
use std::alloc::{AllocError as Memory, Global};
use std::sync::Arc;

/// The answer to the question about the grammar of a draft, in the draft.
fn carried(
    alloc: Global,
    recent: &mut incremental_findings::Recent,
    format: Format,
    places: &SourceMap<'_>,
    ask: &Ask,
) -> Result<Answer, Memory>
    ensures { IfOk result (λ given. spec.IsGiven (spec.inward_ask places.now ask.now) format places.now ask.now given) }
{
    let Some(inner) = inward_ask(places, ask)? else {
        return Ok(outside_answer(alloc, ask));
    };
    let text = places.grammar().text();
    let answer = answer_in_grammar(alloc, recent, text, Encoding::Utf32, &inner)?;
    outward_answer(alloc, format, answer, places)
}

/// The answer by the grammar of a draft.
fn answer_with(
    alloc: Global,
    recent: &mut incremental_findings::Recent,
    format: Format,
    places: &SourceMap<'_>,
    ask: &Ask,
) -> Result<Answer, Memory>
    ensures { IfOk result (λ given. spec.IsAnswerWith format places.now ask.now given) }
{
    match ask {
        Ask::Tokens => Ok(Answer::Numbers(draft_tokens(alloc, places)?)),
        Ask::Diagnose => {
            let found = draft_diagnostics(alloc, recent, places)?;
            Ok(Answer::Draft(DraftAnswer::Findings(found)))
        }
        _ => carried(alloc, recent, format, places, ask),
    }
}

/// What is answered to a rename whose new text is no name.
fn not_a_name(format: Format, draft: &Snapshot) -> Answer
    ensures value { result ≡ Answer.Refused RenameFault.NotAName }
    ensures answer { (encoding : Encoding) (at : Position) (new : List ℕ) → classes.is_name new ≡ false
        → spec.IsAnswerInDraft format encoding draft.now (Ask.Rename at new) result }
{
    let _count = draft.char_count();
    Answer::Refused(RenameFault::NotAName)
}

/// The answer by the draft, which is kept then.
fn by_draft(
    alloc: Global,
    recent: &mut Recent,
    format: Format,
    draft: &Arc<Snapshot>,
    encoding: Encoding,
    ask: &Ask,
) -> Result<Answer, Memory>
    ensures { IfOk result (λ given. spec.IsAnswerInDraft format encoding (arc_value draft.now) ask.now given) }
{
    let read = recent.read_draft(alloc, format, draft)?;
    let places = SourceMap::new(draft, encoding, read.grammar());
    let answer = answer_with(alloc, &mut recent.grammars, format, &places, ask);
    recent.keep_draft(read);
    answer
}

/// The answer to a question about a draft, whose grammar is gathered for it, unless it is kept. A rename to what is no name is refused as that, whatever
/// memory there is.
pub(crate) fn answer_in_draft(
    alloc: Global,
    recent: &mut Recent,
    format: Format,
    draft: &Arc<Snapshot>,
    encoding: Encoding,
    ask: &Ask,
) -> Result<Answer, Memory>
    ensures answer { IfOk result (λ given. spec.IsAnswerInDraft format encoding (arc_value draft.now) ask.now given) }
    ensures not_a_name { IsToNoName ask.now → result ≡ Ok (Answer.Refused RenameFault.NotAName) }
{
    if let Ask::Rename(_, new) = ask {
        if !is_name(new.as_str()) {
            return Ok(not_a_name(format, draft));
        }
    }
    by_draft(alloc, recent, format, draft, encoding, ask)
}
