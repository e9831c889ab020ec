//! Questions about a draft, and those about its grammar that are asked for them.

ghost use Rattle.std.specs.Prelude.{◌≡◌, IfOk};
ghost use Rattle.ls_answers.specs.InDrafts as spec;

use crate::answer::{Answer, DraftAnswer, RenameFault};
use crate::ask::Ask;
use crate::rename::is_name;
use draft_grammars::SourceMap;
use ls_lists::List;
use std::alloc::{AllocError as Memory, Global};

/// The question about the grammar that is asked for one about the draft, unless this is asked outside of all blocks.
pub(crate) fn inward_ask(places: &SourceMap<'_>, ask: &Ask) -> Result<Option<Ask>, Memory>
    ensures { IfOk result (λ inner. inner ≡ spec.inward_ask places.now ask.now) }
{
    match ask {
        Ask::Hover(at) => Ok(places.inward_position(*at).map(Ask::Hover)),
        Ask::Definition(at) => Ok(places.inward_position(*at).map(Ask::Definition)),
        Ask::References(at, declarations) => match places.inward_position(*at) {
            Some(at) => Ok(Some(Ask::References(at, *declarations))),
            None => Ok(None),
        },
        Ask::Symbols => Ok(Some(Ask::Symbols)),
        Ask::Rename(at, new) => match places.inward_position(*at) {
            Some(at) => Ok(Some(Ask::Rename(at, new.copy()?))),
            None => Ok(None),
        },
        Ask::Action(range) => Ok(places.inward_range(*range).map(Ask::Action)),
        Ask::Tokens => Ok(Some(Ask::Tokens)),
        Ask::Diagnose => Ok(Some(Ask::Diagnose)),
    }
}

/// What is answered outside of all blocks.
pub(crate) fn outside_answer(alloc: Global, ask: &Ask) -> Answer
    ensures { result ≡ spec.outside_answer ask.now }
{
    match ask {
        Ask::Hover(_) => Answer::Hover(None),
        Ask::Definition(_) | Ask::References(_, _) => Answer::Places(List::new(alloc)),
        Ask::Rename(_, new) => {
            if is_name(new.as_str()) {
                Answer::Refused(RenameFault::NothingToRename)
            } else {
                Answer::Refused(RenameFault::NotAName)
            }
        }
        Ask::Action(_) => Answer::Insert(None),
        Ask::Symbols => Answer::Symbols(List::new(alloc)),
        Ask::Tokens => Answer::Numbers(List::new(alloc)),
        Ask::Diagnose => Answer::Draft(DraftAnswer::Findings(List::new(alloc))),
    }
}
