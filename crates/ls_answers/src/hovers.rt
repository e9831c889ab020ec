//! What is shown at a position of a text.
ghost use Rattle.std.specs.Prelude.{◌≡◌, ◌<◌, IfOk, Some, length};
ghost use Rattle.abnf_parts.specs.Names.{folded_text};
ghost use Rattle.ls_answers.specs.Hovers.{IsHover, IsHoverOfName, IsHoverOfRule};

use crate::answer::HoverText;
use crate::hover::shown_of;
use abnf_least::least;
use abnf_names::Grammar;
use abnf_parts::RuleNo;
use abnf_token::Folded;
use ls_lists::Text;
use ls_text::{Encoding, Position, Range};
use std::alloc::{AllocError as Memory, Global};

/// What is shown of the name at a position. None where no name stands there.
///
/// # Errors
///
/// Where an allocation is refused.
pub fn hover(
    alloc: Global,
    grammar: &Grammar,
    at: Position,
    encoding: Encoding,
) -> Result<Option<HoverText>, Memory>
    ensures { IfOk result (λ hover. IsHover encoding grammar.now.text at hover) }
{
    let snapshot = grammar.source();
    match grammar.name_at(snapshot.offset_of(at, encoding)) {
        Some((place, name)) => {
            let range = snapshot.range_of(&place, encoding);
            Ok(Some(hover_of_name(alloc, grammar, range, name)?))
        }
        None => Ok(None),
    }
}

/// What is shown of a name that stands there.
fn hover_of_name(
    alloc: Global,
    grammar: &Grammar,
    range: Range,
    name: Folded,
) -> Result<HoverText, Memory>
    ensures { IfOk result (λ hover. IsHoverOfName grammar.now range (folded_text name.entry) hover) }
{
    match grammar.rule_of(name) {
        Some(rule) => hover_of_rule(alloc, grammar, range, rule),
        None => Ok(HoverText {
            range,
            text: Text::from_str(alloc, "undefined")?,
            example: None,
        }),
    }
}

/// What is shown of a rule whose name stands there.
fn hover_of_rule(
    alloc: Global,
    grammar: &Grammar,
    range: Range,
    rule: RuleNo,
) -> Result<HoverText, Memory>
    requires { rule < length grammar.now.rules }
    ensures { IfOk result (λ hover. IsHoverOfRule grammar.now.rules range (Some rule) hover) }
{
    let cert = least(alloc, grammar)?;
    let (shown, text) = shown_of(alloc, grammar, &cert, rule)?;
    Ok(HoverText {
        range,
        text: Text::new(text),
        example: Some((shown, cert)),
    })
}
