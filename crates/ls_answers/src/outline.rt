//! The outline of a text: its blocks that have a head.
ghost use Rattle.std.specs.Prelude.{◌≡◌, IfOk};
ghost use Rattle.ls_answers.specs.Outline.{IsOutline};
ghost use Rattle.ls_answers.specs.own.Outline.{headed_symbol};

use crate::answer::Symbol;
use abnf_syntax::{Headed, Sheet, place_of};
use ls_lists::{List, Text};
use ls_text::{Encoding, Range, Snapshot};
use std::alloc::{AllocError as Memory, Global};

/// The symbols of a text: one for each block with a head, in their order.
///
/// # Errors
///
/// Where an allocation is refused.
pub fn symbols(
    alloc: Global,
    snapshot: &Snapshot,
    encoding: Encoding,
) -> Result<List<Symbol>, Memory>
    ensures { IfOk result (λ symbols. IsOutline encoding snapshot.now symbols) }
{
    let sheet = Sheet::of(snapshot);
    let count = sheet.count();
    let mut symbols = Vec::new(alloc);
    let mut first = sheet.next_block(0, count);
    'blocks: while first < count {
        let end = sheet.next_block(first + 1, count);
        if let Some(block) = Headed::of(&sheet, first, end) {
            let symbol = symbol_of(alloc, snapshot, encoding, block)?;
            symbols.push(symbol)?;
        }
        first = end;
    }
    Ok(List::from_vec(symbols))
}

/// The symbol of a block, which goes from the start of its first item, the name, to the end of its last.
fn symbol_of(
    alloc: Global,
    snapshot: &Snapshot,
    encoding: Encoding,
    block: Headed<'_>,
) -> Result<Symbol, Memory>
    ensures { IfOk result (λ symbol. symbol ≡ headed_symbol encoding snapshot.now block.entry) }
{
    let name = Text::from_str(alloc, block.head.name.text)?;
    let name_range = snapshot.range_of(&place_of(block.head.name), encoding);
    let last_range = snapshot.range_of(&place_of(block.last), encoding);
    let range = Range {
        start: name_range.start,
        end: last_range.end,
    };
    Ok(Symbol {
        name,
        range,
        name_range,
    })
}
