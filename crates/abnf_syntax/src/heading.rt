//! The heading of a block: the name that it begins with, and its `=` or `=/`.

ghost use Rattle.std.specs.Prelude.{◌≡◌, ◌<◌, ◌∷◌, length, IfOk, IfErr, Some, Err};

use crate::fault::SyntaxFault;
use crate::item::Item;
use crate::kinds::{is_defined_as, is_name};
use crate::table::{place_after, place_of};

/// The first two items of a block, and those behind them.
#[derive(Clone, Copy)]
pub struct Heading<'s, 't> {
    pub head: Item<'t>,
    pub defined: Item<'t>,
    pub body: &'s [Item<'t>],
}

impl<'s, 't> Heading<'s, 't> {
    ghost use Rattle.abnf_syntax.specs.Machine as spec;

    /// The heading that these items begin with, or the fault of the first item that isn't its.
    pub(crate) fn of(items: &'s [Item<'t>]) -> Result<Heading<'s, 't>, SyntaxFault>
        requires { 0 < length items.now }
        ensures split { IfOk result (λ heading. items.now ≡ heading.head ∷ heading.defined ∷ heading.body.now) }
        ensures ok { IfOk result (λ heading.
            (spec.parse items.now ≡ spec.rule_with heading.head heading.defined (spec.run (spec.start heading.defined) heading.body.now))
            × (spec.early items.now ≡ spec.fault_at (spec.start heading.defined) heading.body.now)) }
        ensures err { IfErr result (λ fault. (spec.parse items.now ≡ Err fault) × (spec.early items.now ≡ Some fault)) }
    {
        let Some((head, rest)) = items.split_first() else {
            unreachable!()
        };
        if !is_name(head.token.kind) {
            return Err(SyntaxFault::NoName(place_of(head.token)));
        }
        let Some((defined, body)) = rest.split_first() else {
            return Err(SyntaxFault::NoDefinedAs(place_after(head.token)));
        };
        if !is_defined_as(defined.token.kind) {
            return Err(SyntaxFault::NoDefinedAs(place_of(defined.token)));
        }
        Ok(Heading {
            head: *head,
            defined: *defined,
            body,
        })
    }
}
