//! Where names stand in a text.
ghost use Rattle.std.specs.Prelude.{◌≡◌, List, map, IfOk};
ghost use Rattle.abnf_names.specs.Places.{Named, named_at};
ghost use Rattle.abnf_names.specs.Rules.{HasPlaces};
ghost use Rattle.abnf_parts.specs.Names.{folded_text};
ghost use Rattle.ls_answers.specs.Places.{AreDefinitions, ArePlaces, AreReferences, name_range, ranges_of, wanted_with};

use abnf_names::Spot;
use abnf_places::{Wanted, name_at, places_of};
use abnf_token::Folded;
use ls_lists::List;
use ls_text::{Encoding, Position, Range, Ruler, Snapshot};
use std::alloc::{AllocError as Memory, Global};

/// The places that refer to a name: with its definitions or without them.
fn wanted_with(declarations: bool) -> Wanted
    ensures { result ≡ wanted_with declarations }
{
    if declarations {
        Wanted::Both
    } else {
        Wanted::Uses
    }
}

/// The places that define the name at a position, in the order of the text. None where no name stands there.
///
/// # Errors
///
/// Where an allocation is refused.
pub fn definitions(
    alloc: Global,
    snapshot: &Snapshot,
    at: Position,
    encoding: Encoding,
) -> Result<List<Range>, Memory>
    ensures { IfOk result (λ ranges. AreDefinitions encoding snapshot.now at ranges) }
{
    ranges_at(alloc, snapshot, at, encoding, Wanted::Definitions)
}

/// The places of the name at a position, with those that define it or without them, in the order of the text. None where no name
/// stands there.
///
/// # Errors
///
/// Where an allocation is refused.
pub fn references(
    alloc: Global,
    snapshot: &Snapshot,
    at: Position,
    encoding: Encoding,
    declarations: bool,
) -> Result<List<Range>, Memory>
    ensures { IfOk result (λ ranges. AreReferences encoding snapshot.now at declarations ranges) }
{
    ranges_at(alloc, snapshot, at, encoding, wanted_with(declarations))
}

/// The wanted places of the name at a position, in the order of the text. None where no name stands there.
fn ranges_at(
    alloc: Global,
    snapshot: &Snapshot,
    at: Position,
    encoding: Encoding,
    wanted: Wanted,
) -> Result<List<Range>, Memory>
    ensures { IfOk result (λ ranges. ArePlaces encoding wanted snapshot.now at ranges) }
{
    let offset = snapshot.offset_of(at, encoding);
    match name_at(alloc, snapshot, offset)? {
        Some((_, name)) => ranges_of_name(alloc, snapshot, encoding, name, wanted),
        None => Ok(List::new(alloc)),
    }
}

/// The ranges of the wanted places of a name in a text.
fn ranges_of_name(
    alloc: Global,
    snapshot: &Snapshot,
    encoding: Encoding,
    name: Folded<'_>,
    wanted: Wanted,
) -> Result<List<Range>, Memory>
    ensures { IfOk result (λ ranges. (places : List Named) → HasPlaces snapshot.now places
        → ranges ≡ ranges_of encoding wanted snapshot.now (folded_text name.entry) places) }
{
    let spots = places_of(alloc, snapshot, name, wanted)?;
    ranges_of_spots(alloc, snapshot, encoding, spots.as_slice())
}

/// The ranges of these places of names.
fn ranges_of_spots(
    alloc: Global,
    snapshot: &Snapshot,
    encoding: Encoding,
    spots: &[Spot<'_>],
) -> Result<List<Range>, Memory>
    ensures { IfOk result (λ ranges. ranges ≡ map (name_range encoding snapshot.now) (map named_at spots.now)) }
{
    let mut ruler = Ruler::new(snapshot, encoding);
    let mut ranges = List::new(alloc);
    for spot in spots {
        ranges.push(ruler.range_of(&spot.place))?;
    }
    Ok(ranges)
}

/// The ranges of the wanted places of a name among these, in their order.
///
/// # Errors
///
/// Where an allocation is refused.
pub fn ranges_of(
    alloc: Global,
    snapshot: &Snapshot,
    encoding: Encoding,
    spots: &[Spot<'_>],
    name: Folded<'_>,
    wanted: Wanted,
) -> Result<List<Range>, Memory>
    ensures { IfOk result (λ ranges. ranges ≡ ranges_of encoding wanted snapshot.now (folded_text name.entry) (map named_at spots.now)) }
{
    let mut ruler = Ruler::new(snapshot, encoding);
    let mut ranges = List::new(alloc);
    for spot in spots {
        if name == spot.name && wanted.takes(spot.defines) {
            ranges.push(ruler.range_of(&spot.place))?;
        }
    }
    Ok(ranges)
}
