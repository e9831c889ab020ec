//! What gives a name another text.
ghost use Rattle.std.specs.Prelude.{◌≡◌, IfOk, IsTrue, map};
ghost use Rattle.std.specs.List.{list_all, list_any};
ghost use Rattle.std.specs.Str.{bytes_eq};
ghost use Rattle.abnf_names.specs.Places.{places_of_name};
ghost use Rattle.abnf_parts.specs.Names.{folded_text};
ghost use Rattle.abnf_rename.specs.Rules as granting;
ghost use Rattle.abnf_token.specs.Classes as classes;
ghost use Rattle.abnf_token.specs.Folded.{lowercase};
ghost use Rattle.ls_answers.specs.Places.{name_range};
ghost use Rattle.ls_answers.specs.Renames as spec;
ghost use Rattle.ls_answers.specs.own.Renamed as own;

use crate::answer::{Answer, RenameFault};
use crate::places::ranges_of;
use abnf_names::{Grammar, Spot};
use abnf_parts::is_core_name;
use abnf_places::Wanted;
use abnf_token::Folded;
use ls_lists::{List, Text};
use ls_text::{Encoding, Position, Range};
use std::alloc::{AllocError as Memory, Global};

/// What gives the name at a position another text, which must be a name: the ranges of all its places, in the order of the text, or why
/// it isn't granted, which is the first of [`RenameFault`] that holds. The same text, or the same name in another case, is granted.
///
/// # Errors
///
/// Where an allocation is refused.
pub fn rename(
    alloc: Global,
    grammar: &Grammar,
    at: Position,
    encoding: Encoding,
    new: &Text,
) -> Result<Answer, Memory>
    requires { IsTrue (classes.is_name new.now) }
    ensures { IfOk result (λ answer. spec.IsRename encoding grammar.now.text at new.now answer) }
{
    let snapshot = grammar.source();
    match grammar.name_at(snapshot.offset_of(at, encoding)) {
        Some((_, old)) => answer_for_name(alloc, grammar, old, encoding, new),
        None => Ok(Answer::Refused(RenameFault::NothingToRename)),
    }
}

/// What gives a name another text, or why it isn't granted.
fn answer_for_name(
    alloc: Global,
    grammar: &Grammar,
    old: Folded,
    encoding: Encoding,
    new: &Text,
) -> Result<Answer, Memory>
    ensures { IfOk result (λ answer. answer ≡ own.answer_for_name encoding grammar.now (folded_text old.entry) new.now (spec.fault_of_name grammar.now (folded_text old.entry) new.now)) }
{
    match fault_of_name(grammar, old, new.as_str()) {
        Some(fault) => Ok(Answer::Refused(fault)),
        None => {
            let ranges = all_ranges(alloc, grammar, old, encoding)?;
            Ok(Answer::Edits(ranges, new.copy()?))
        }
    }
}

/// The ranges of all places of a name, in the order of the text.
fn all_ranges(
    alloc: Global,
    grammar: &Grammar,
    name: Folded,
    encoding: Encoding,
) -> Result<List<Range>, Memory>
    ensures { IfOk result (λ ranges. ranges ≡ map (name_range encoding grammar.now.text) (places_of_name (folded_text name.entry) grammar.now.places)) }
{
    ranges_of(
        alloc,
        grammar.source(),
        encoding,
        grammar.spots(),
        name,
        Wanted::Both,
    )
}

/// Why a name isn't given this new text.
fn fault_of_name(grammar: &Grammar, old: Folded, new: &str) -> Option<RenameFault>
    ensures { result ≡ spec.fault_of_name grammar.now (folded_text old.entry) new.now }
{
    if grammar.own_rule_of(old).is_none() {
        return Some(RenameFault::NothingToRename);
    }
    let new = Folded(new);
    if new != old && is_in_use(grammar, new) {
        return Some(RenameFault::NameInUse);
    }
    None
}

/// Whether a name stands at one of these places.
fn has_spot(spots: &[Spot], name: Folded) -> bool
    ensures { result ≡ list_any (λ spot. bytes_eq (folded_text name.entry) (folded_text spot.name)) spots.now }
{
    spots.iter().any(|spot| name == spot.name)
}

/// Whether a name stands somewhere in the text.
fn has_place(grammar: &Grammar, name: Folded) -> bool
    ensures { result ≡ list_any (λ n. bytes_eq (folded_text name.entry) (lowercase n.text)) grammar.now.places }
{
    has_spot(grammar.spots(), name)
}

/// Whether a name stands somewhere in the text, or is that of a core rule.
fn is_in_use(grammar: &Grammar, name: Folded) -> bool
    ensures { result ≡ granting.is_in_use grammar.now (folded_text name.entry) }
{
    has_place(grammar, name) || is_core_name(name)
}

/// Whether a text is a name: a letter, then letters, digits and `-` (RFC 5234, sections 2.1 and 4).
pub(crate) fn is_name(text: &str) -> bool
    ensures { result ≡ classes.is_name text.now }
{
    match text.as_bytes() {
        [first, rest @ ..] => first.is_ascii_alphabetic() && are_name_bytes(rest),
        [] => false,
    }
}

/// Whether these are letters, digits and `-` alone.
fn are_name_bytes(bytes: &[u8]) -> bool
    ensures { result ≡ list_all classes.is_name_byte bytes.now }
{
    bytes.iter().all(|byte| byte.is_ascii_alphabetic() || byte.is_ascii_digit() || *byte == b'-')
}
