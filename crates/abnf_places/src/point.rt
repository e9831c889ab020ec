//! The name at a point of a text.

ghost use Rattle.std.specs.Prelude.{◌≡◌, map, option_map, IfOk, OnErr, List, MatchOption, suc};
ghost use Rattle.abnf_names.specs.Places.{named_at, place_and_name};
ghost use Rattle.abnf_syntax.specs.Blocks.{HasBlock, NoneBegins, line_texts};
ghost use Rattle.abnf_syntax.specs.declared.block.Block.{Block};
ghost use Rattle.abnf_places.specs.Found.{IsNameAt};
ghost use Rattle.abnf_places.specs.own.Blocks as spec;

use crate::block::block_spots;
use abnf_names::{Spot, found_at};
use abnf_syntax::Sheet;
use abnf_token::Folded;
use ls_lists::List;
use ls_text::{Place, Snapshot};
use std::alloc::{AllocError, Global};

/// The last line up to this one that begins a block.
fn block_start(sheet: &Sheet<'_>, line: usize) -> Option<usize>
    ensures { MatchOption result (NoneBegins sheet.now 0 (suc line)) (spec.IsStartBefore sheet.now line) }
{
    if sheet.begins(line) {
        return Some(line);
    }
    for at in (0..line).rev() {
        if sheet.begins(at) {
            return Some(at);
        }
    }
    None
}

/// The places of names in the block that holds a line, if one does. They have all places on that line.
fn spots_around<'t>(
    alloc: Global,
    sheet: &Sheet<'t>,
    line: usize,
) -> Result<List<Spot<'t>>, AllocError>
    ensures spots { IfOk result (λ spots. (blocks : List Block) → spec.AreBlocksFrom sheet.now 0 blocks
        → spec.places_on line (map named_at spots) ≡ spec.places_on line (spec.places_of_all blocks)) }
    ensures memory { OnErr result (HasBlock sheet.now) }
{
    match block_start(sheet, line) {
        Some(first) => {
            let count = sheet.count();
            let end = sheet.next_block(first + 1, count);
            block_spots(alloc, sheet, first, end)
        }
        None => Ok(List::new(alloc)),
    }
}

/// The name at an offset, which counts characters of the text, and its place. That is the place which holds the character
/// behind the offset, else the one that ends there; `None` where neither is. An offset past the text's end is taken for
/// the end.
///
/// Only the block that holds the offset's line is read. Its ends are looked for line by line.
///
/// # Errors
///
/// Where an allocation is refused. Where no block holds the line, none is made.
pub fn name_at<'t>(
    alloc: Global,
    snapshot: &'t Snapshot,
    offset: usize,
) -> Result<Option<(Place, Folded<'t>)>, AllocError>
    ensures name { IfOk result (λ found. IsNameAt snapshot.entry.now offset (option_map place_and_name found)) }

    // A text without blocks needs no memory.
    ensures memory { OnErr result (HasBlock (line_texts snapshot.entry.now)) }
{
    let at = snapshot.place_at(offset);
    let sheet = Sheet::of(snapshot);
    let spots = spots_around(alloc, &sheet, at.line)?;
    match found_at(spots.as_slice(), at) {
        Some(spot) => Ok(Some((spot.place, spot.name))),
        None => Ok(None),
    }
}
