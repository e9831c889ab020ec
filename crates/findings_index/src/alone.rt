//! Findings of a block whatever other blocks say.

ghost use Rattle.std.specs.Prelude.{◌≡◌, ◌||◌};
ghost use Rattle.std.specs.Option.{is_some};
ghost use Rattle.std.specs.List.{list_any};
ghost use Rattle.abnf_syntax.specs.Grammar.{kind_of};
ghost use Rattle.abnf_lint.specs.Empty.{is_empty_number};

use abnf_lint::is_empty_number;
use abnf_names::Section;
use abnf_syntax::Item;

/// Whether one of these items is an empty repeat or range.
fn one_is_empty(items: &[Item<'_>]) -> bool
    ensures { result ≡ list_any (λ item. is_empty_number (kind_of item) item.token.text.now) items.now }
{
    items.iter().any(|item| is_empty_number(item.token))
}

/// Whether a section shows a fault, or has an empty repeat or range.
pub(crate) fn has_own_findings(section: &Section<'_>) -> bool
    ensures { result ≡ (is_some section.now.fault || list_any (λ item. is_empty_number (kind_of item) item.token.text.now) section.now.block.items) }
{
    section.fault.is_some() || one_is_empty(section.block.items.as_slice())
}
