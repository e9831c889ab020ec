//! The places of a name in a text.

ghost use Rattle.std.specs.Prelude.{map, IfOk, OnErr};
ghost use Rattle.abnf_names.specs.Places.{named_at};
ghost use Rattle.abnf_parts.specs.Names.{folded_text};
ghost use Rattle.abnf_syntax.specs.Blocks.{HasBlock, line_texts};
ghost use Rattle.abnf_places.specs.declared.wanted.Wanted.TheVariants.{Definitions};
ghost use Rattle.abnf_places.specs.Found.{ArePlacesOf};
ghost use Rattle.abnf_places.specs.own.Blocks as spec;

use crate::block::{Sought, push_wanted};
use crate::stated::{begins_with, is_stated};
use crate::wanted::Wanted;
use abnf_names::Spot;
use abnf_syntax::Sheet;
use abnf_token::Folded;
use ls_lists::List;
use ls_text::Snapshot;
use std::alloc::{AllocError, Global};

/// The places that define a name. A block with one begins with the name, so a line's first item is looked at before its indent.
fn definitions_of<'t>(
    alloc: Global,
    sheet: &Sheet<'t>,
    name: Folded<'_>,
) -> Result<List<Spot<'t>>, AllocError>
    ensures places { IfOk result (λ spots. spec.AreWanted sheet.now Definitions (folded_text name.entry) (map named_at spots)) }
    ensures memory { OnErr result (HasBlock sheet.now) }
{
    let sought = Sought {
        name,
        wanted: Wanted::Definitions,
    };
    let count = sheet.count();
    let mut spots = List::new(alloc);
    for at in 0..count {
        if begins_with(sheet, at, name) && sheet.begins(at) {
            let end = sheet.next_block(at + 1, count);
            push_wanted(alloc, &mut spots, sheet, at, end, sought)?;
        }
    }
    Ok(spots)
}

/// The wanted places of a name, which may be anywhere in a block that has the name written in it.
fn stated_places<'t>(
    alloc: Global,
    sheet: &Sheet<'t>,
    name: Folded<'_>,
    wanted: Wanted,
) -> Result<List<Spot<'t>>, AllocError>
    ensures places { IfOk result (λ spots. spec.AreWanted sheet.now wanted (folded_text name.entry) (map named_at spots)) }
    ensures memory { OnErr result (HasBlock sheet.now) }
{
    let sought = Sought { name, wanted };
    let count = sheet.count();
    let mut spots = List::new(alloc);
    let mut first = sheet.next_block(0, count);
    'blocks: while first < count {
        let end = sheet.next_block(first + 1, count);
        if is_stated(sheet, first, end, name) {
            push_wanted(alloc, &mut spots, sheet, first, end, sought)?;
        }
        first = end;
    }
    Ok(spots)
}

/// The wanted places of a name in a text, all and in its order.
///
/// The marks of all lines are looked at. A block is read only where the name is written in it, and for definitions only
/// where it begins with the name.
///
/// # Errors
///
/// Where an allocation is refused. Where no block has the name, none is made.
pub fn places_of<'t>(
    alloc: Global,
    snapshot: &'t Snapshot,
    name: Folded<'_>,
    wanted: Wanted,
) -> Result<List<Spot<'t>>, AllocError>
    ensures places { IfOk result (λ spots. ArePlacesOf snapshot.entry.now wanted (folded_text name.entry) (map named_at spots)) }

    // A text without blocks needs no memory.
    ensures memory { OnErr result (HasBlock (line_texts snapshot.entry.now)) }
{
    let sheet = Sheet::of(snapshot);
    match wanted {
        Wanted::Definitions => definitions_of(alloc, &sheet, name),
        Wanted::Uses | Wanted::Both => stated_places(alloc, &sheet, name, wanted),
    }
}
