//! The places of names in one block.

ghost use Rattle.std.specs.Prelude.{◌≡◌, ◌++◌, map, flat_map, IfOk, OnOk, List};
ghost use Rattle.abnf_names.specs.Places.{named_at, places_in};
ghost use Rattle.abnf_parts.specs.Names.{folded_text};
ghost use Rattle.abnf_syntax.specs.Blocks.{IsBlock};
ghost use Rattle.abnf_syntax.specs.Items.{AreItems};
ghost use Rattle.abnf_syntax.specs.declared.item.Item.{Item};
ghost use Rattle.abnf_places.specs.Wanted.{wanted_places};

use crate::wanted::Wanted;
use abnf_names::{Spot, push_places};
use abnf_syntax::{Block, Sheet, blocks_between};
use abnf_token::Folded;
use ls_lists::List;
use std::alloc::{AllocError, Global};

/// What is looked for: a name, and which of its places.
#[derive(Clone, Copy)]
pub(crate) struct Sought<'n> {
    pub name: Folded<'n>,
    pub wanted: Wanted,
}

/// The places of names in some blocks.
fn spots_in<'t>(alloc: Global, blocks: &[Block<'t>]) -> Result<List<Spot<'t>>, AllocError>
    ensures { IfOk result (λ spots. map named_at spots ≡ flat_map (λ block. places_in block.items) blocks.now) }
{
    let mut spots = List::new(alloc);
    for block in blocks {
        push_places(&mut spots, block)?;
    }
    Ok(spots)
}

/// The places of names in the block of these lines.
pub(crate) fn block_spots<'t>(
    alloc: Global,
    sheet: &Sheet<'t>,
    first: usize,
    end: usize,
) -> Result<List<Spot<'t>>, AllocError>
    requires { IsBlock sheet.now first end }
    ensures { IfOk result (λ spots. (items : List Item) → AreItems sheet.now first end items → map named_at spots ≡ places_in items) }
{
    let blocks = blocks_between(alloc, sheet, first, end)?;
    spots_in(alloc, blocks.as_slice())
}

/// Adds the places among these that are sought.
fn push_alike<'t>(
    spots: &mut List<Spot<'t>>,
    all: &[Spot<'t>],
    sought: Sought<'_>,
) -> Result<(), AllocError>
    ensures { OnOk result (map named_at spots.new ≡ map named_at spots.old ++ wanted_places sought.entry.wanted (folded_text sought.entry.name) (map named_at all.now)) }
{
    for spot in all {
        if sought.name == spot.name && sought.wanted.takes(spot.defines) {
            spots.push(*spot)?;
        }
    }
    Ok(())
}

/// Adds the places in the block of these lines that are sought.
pub(crate) fn push_wanted<'t>(
    alloc: Global,
    spots: &mut List<Spot<'t>>,
    sheet: &Sheet<'t>,
    first: usize,
    end: usize,
    sought: Sought<'_>,
) -> Result<(), AllocError>
    requires { IsBlock sheet.now first end }
    ensures { OnOk result ((items : List Item) → AreItems sheet.now first end items
        → map named_at spots.new ≡ map named_at spots.old ++ wanted_places sought.entry.wanted (folded_text sought.entry.name) (places_in items)) }
{
    let all = block_spots(alloc, sheet, first, end)?;
    push_alike(spots, all.as_slice(), sought)
}
