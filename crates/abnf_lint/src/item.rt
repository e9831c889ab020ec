//! What is found at single items, and at a fault.

ghost use Rattle.std.specs.Prelude.{◌≡◌, ◌++◌, Bool, false, flat_map, IfOk, OnOk};
ghost use Rattle.abnf_syntax.specs.Faults as faults;
ghost use Rattle.abnf_parts.specs.Names.{Name, folded_text};
ghost use Rattle.abnf_names.specs.Places as places;
ghost use Rattle.abnf_lint.specs.Found as spec;

use crate::empty::is_empty_number;
use crate::finding::{Code, Finding};
use abnf_names::{Grammar, is_touched};
use abnf_syntax::{Item, SyntaxFault, place_of};
use abnf_token::{Folded, Kind, Token};
use ls_lists::{List, Text};
use ls_text::Place;
use std::alloc::{AllocError, Global};

/// Names, of which it is known which are strange: which stand for nothing.
pub trait Names {
    // Whether a name in small letters is strange.
    ghost strange: { Self → Name → Bool };

    /// Whether a name is strange.
    ///
    /// # Errors
    ///
    /// Where an allocation is refused.
    fn is_strange(&self, name: Folded<'_>) -> Result<bool, AllocError>
        ensures { IfOk result (λ answer. answer ≡ strange self.now (folded_text name.entry)) };
}

impl Names for Grammar<'_> {
    ghost strange = { λ grammar. spec.is_none_of grammar.names };

    fn is_strange(&self, name: Folded<'_>) -> Result<bool, AllocError> {
        Ok(self.rule_of(name).is_none())
    }
}

/// Adds a finding if it holds.
pub(crate) fn push_if(
    alloc: Global,
    holds: bool,
    code: Code,
    place: Place,
    name: &str,
    found: &mut List<Finding>,
) -> Result<(), AllocError>
    ensures { OnOk result (found.new ≡ found.old ++ spec.finding_if holds code place name.now) }
{
    if !holds {
        return Ok(());
    }
    let name = Text::from_str(alloc, name)?;
    found.push(Finding { place, code, name })
}

/// Adds what is found at a fault.
pub(crate) fn push_fault(
    alloc: Global,
    fault: SyntaxFault,
    found: &mut List<Finding>,
) -> Result<(), AllocError>
    ensures { OnOk result (found.new ≡ found.old ++ spec.fault_found fault) }
{
    let (code, place) = match fault {
        SyntaxFault::NoName(place)
        | SyntaxFault::NoDefinedAs(place)
        | SyntaxFault::BadToken(place)
        | SyntaxFault::ElementExpected(place)
        | SyntaxFault::BlankExpected(place)
        | SyntaxFault::Unclosed(place) => (Code::Syntax(fault), place),
        SyntaxFault::NumberTooLarge(place) => (Code::NumberTooLarge, place),
        SyntaxFault::TooDeep(place) => (Code::TooDeep, place),
        SyntaxFault::Memory => return Ok(()),
    };
    push_if(alloc, true, code, place, "", found)
}

/// Adds what is found at a repeat or a number.
fn push_number(alloc: Global, token: Token<'_>, found: &mut List<Finding>) -> Result<(), AllocError>
    ensures { OnOk result (found.new ≡ found.old ++ spec.number_found token.entry.kind (faults.place_of token.entry) token.entry.text.now) }
{
    let holds = is_empty_number(token);
    match token.kind {
        Kind::Repeat => push_if(alloc, holds, Code::EmptyRepeat, place_of(token), "", found),
        Kind::Number => push_if(alloc, holds, Code::EmptyRange, place_of(token), "", found),
        _ => Ok(()),
    }
}

/// Adds what is found at a use.
fn push_use<N: Names>(
    alloc: Global,
    names: &N,
    token: Token<'_>,
    found: &mut List<Finding>,
) -> Result<(), AllocError>
    ensures { OnOk result (found.new ≡ found.old ++ spec.use_found (N.strange names.now) (record { text = token.entry.text.now; place = faults.place_of token.entry; defines = false })) }
{
    let holds = names.is_strange(Folded(token.text))?;
    push_if(
        alloc,
        holds,
        Code::Undefined,
        place_of(token),
        token.text,
        found,
    )
}

/// Adds what is found at an item if it is a use.
fn push_if_use<N: Names>(
    alloc: Global,
    names: &N,
    before: Kind,
    item: Item<'_>,
    found: &mut List<Finding>,
) -> Result<(), AllocError>
    ensures { OnOk result (found.new ≡ found.old ++ flat_map (spec.use_found (N.strange names.now)) (places.use_after before item.entry)) }
{
    if is_touched(before, item) {
        return Ok(());
    }
    match item.token.kind {
        Kind::Name => push_use(alloc, names, item.token, found),
        _ => Ok(()),
    }
}

/// Adds what is found at the items of a block without fault; the first of them is its head.
pub(crate) fn push_items<N: Names>(
    alloc: Global,
    names: &N,
    items: &[Item<'_>],
    found: &mut List<Finding>,
) -> Result<(), AllocError>
    ensures { OnOk result (found.new ≡ found.old ++ spec.body_found (N.strange names.now) items.now) }
{
    let Some((first, rest)) = items.split_first() else {
        return Ok(());
    };
    let mut before = first.token.kind;
    for item in rest {
        push_if_use(alloc, names, before, *item, found)?;
        push_number(alloc, item.token, found)?;
        before = item.token.kind;
    }
    Ok(())
}
