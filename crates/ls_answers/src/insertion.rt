//! What could be inserted at a range.
ghost use Rattle.std.specs.Prelude.{◌≡◌, ◌<◌, ◌&&◌, IfOk, bytes_eq, find, length, min, option_map};
ghost use Rattle.ls_text.specs.Edits.{position_offset};
ghost use Rattle.ls_text.specs.Lines.{units};
ghost use Rattle.abnf_parts.specs.Names.{folded_text, rule_number};
ghost use Rattle.ls_answers.specs.Insertions as spec;

use crate::answer::Insertion;
use abnf_cert::Cert;
use abnf_least::{Shortest, example, least, render};
use abnf_names::{Grammar, Spot};
use abnf_parts::RuleNo;
use abnf_token::Folded;
use ls_lists::Text;
use ls_text::{Encoding, Position, Range, Snapshot};
use std::alloc::{AllocError as Memory, Global};

/// What could be inserted at a range: where a name stands at its start that the text defines, and whose rule has an example that is
/// shown, this example, as a comment on a line of its own before the rule.
///
/// # Errors
///
/// Where an allocation is refused.
pub fn insertion(
    alloc: Global,
    grammar: &Grammar,
    range: Range,
    encoding: Encoding,
) -> Result<Option<Insertion>, Memory>
    ensures { IfOk result (λ insertion. spec.IsInsertion encoding grammar.now.text range insertion) }
{
    match grammar.name_at(start_of(grammar.source(), range, encoding)) {
        Some((_, name)) => insertion_of_name(alloc, grammar, name, encoding),
        None => Ok(None),
    }
}

/// The offset at which a range starts, whichever of its ends comes first.
fn start_of(snapshot: &Snapshot, range: Range, encoding: Encoding) -> usize
    ensures { result ≡ min (position_offset (units encoding) snapshot.now range.start) (position_offset (units encoding) snapshot.now range.end) }
{
    snapshot
        .offset_of(range.start, encoding)
        .min(snapshot.offset_of(range.end, encoding))
}

/// What could be inserted of a name.
fn insertion_of_name(
    alloc: Global,
    grammar: &Grammar,
    name: Folded,
    encoding: Encoding,
) -> Result<Option<Insertion>, Memory>
    ensures { IfOk result (λ insertion. spec.IsInsertionBy encoding grammar.now
        (spec.first_head grammar.now (folded_text name.entry)) (rule_number grammar.now.names (folded_text name.entry)) insertion) }
{
    let Some(head) = first_definition(grammar.spots(), name) else {
        return Ok(None);
    };
    let Some(rule) = grammar.rule_of(name) else {
        return Ok(None);
    };
    let line = grammar.source().range_of(&head.place, encoding).start.line;
    insertion_of_rule(alloc, grammar, line, rule)
}

/// Whether a place is that of a head with this name.
fn is_head_of(spot: &Spot, name: Folded) -> bool
    ensures { result ≡ (spot.now.defines && bytes_eq (folded_text name.entry) (folded_text spot.now.name)) }
{
    spot.defines && name == spot.name
}

/// The first place that defines a name.
fn first_definition<'s, 't>(spots: &'s [Spot<'t>], name: Folded) -> Option<&'s Spot<'t>>
    ensures { option_map (λ spot. spot.now) result ≡ find (λ spot. spot.defines && bytes_eq (folded_text name.entry) (folded_text spot.name)) spots.now }
{
    spots.iter().find(|spot| is_head_of(spot, name))
}

/// What could be inserted before this line of a rule.
fn insertion_of_rule(
    alloc: Global,
    grammar: &Grammar,
    line: u32,
    rule: RuleNo,
) -> Result<Option<Insertion>, Memory>
    requires { rule < length grammar.now.rules }
    ensures { IfOk result (λ insertion. spec.IsInsertionOfRule grammar.now.rules line rule insertion) }
{
    let cert = least(alloc, grammar)?;
    match example(alloc, grammar, &cert, rule)? {
        Shortest::Shown { text, .. } => Ok(Some(Insertion {
            position: Position { line, character: 0 },
            text: comment_of(alloc, text.as_slice())?,
            cert,
        })),
        _ => Ok(None),
    }
}

/// An example as a comment on a line of its own.
fn comment_of(alloc: Global, example: &[u32]) -> Result<Text, Memory>
    ensures { IfOk result (λ text. text ≡ spec.comment_of example.now) }
{
    let example = render(alloc, example)?;
    let mut text = String::from_str(alloc, "; example ")?;
    text.push_str(example.as_str())?;
    text.push_str("\n")?;
    Ok(Text::new(text))
}
