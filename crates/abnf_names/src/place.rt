//! The places of names.

ghost use Rattle.std.specs.Prelude.{◌≡◌, ◌++◌, ◌∷◌, [], drop, map, flat_map, find, option_map, IfOk, MatchOption, OnOk};
ghost use Rattle.abnf_names.specs.Places as places;
ghost use Rattle.abnf_parts.specs.Names.{folded_text};

use crate::section::Section;
use abnf_syntax::{Block, Item, place_of};
use abnf_token::{Folded, Kind};
use ls_lists::List;
use ls_text::Place;
use std::alloc::{AllocError, Global};

/// A place of a name, and whether the name is the head of a block there: it defines the name, or adds to it.
#[derive(Clone, Copy, Debug, PartialEq, Eq)]
pub struct NamePlace {
    /// The place, in bytes of its line.
    pub place: Place,
    /// Whether the name is the head of a block there.
    pub defines: bool,
}

/// A place of a name, with the name.
#[derive(Clone, Copy, Debug)]
pub struct Spot<'t> {
    /// The name, as it is written there.
    pub name: Folded<'t>,
    /// Its place, in bytes of its line.
    pub place: Place,
    /// Whether the name is the head of a block there, as in [`NamePlace`].
    pub defines: bool,
}

/// Adds the place of an item that is a name.
fn push_named<'t>(
    spots: &mut List<Spot<'t>>,
    defines: bool,
    item: Item<'t>,
) -> Result<(), AllocError>
    ensures { OnOk result (map places.named_at spots.new ≡ map places.named_at spots.old ++ places.named defines item.entry) }
{
    match item.token.kind {
        Kind::Name => spots.push(Spot {
            name: Folded(item.token.text),
            place: place_of(item.token),
            defines,
        }),
        _ => Ok(()),
    }
}

/// Whether an item belongs to the misspelled thing before it: it follows a bad token or a number at once. A name there is no use.
pub fn is_touched(before: Kind, item: Item<'_>) -> bool
    ensures { result ≡ places.is_touched before item.entry }
{
    match before {
        Kind::Bad | Kind::Number => !item.apart,
        _ => false,
    }
}

/// Adds the place of a use behind an item of this kind.
fn push_use<'t>(spots: &mut List<Spot<'t>>, before: Kind, item: Item<'t>) -> Result<(), AllocError>
    ensures { OnOk result (map places.named_at spots.new ≡ map places.named_at spots.old ++ places.use_after before item.entry) }
{
    if is_touched(before, item) {
        Ok(())
    } else {
        push_named(spots, false, item)
    }
}

/// Adds the places of names in a block, which may be faulty, in its order, behind those that are there.
///
/// # Errors
///
/// Where an allocation is refused. Some of the places may have been added then.
pub fn push_places<'t>(spots: &mut List<Spot<'t>>, block: &Block<'t>) -> Result<(), AllocError>
    ensures { OnOk result (map places.named_at spots.new ≡ map places.named_at spots.old ++ places.places_in block.now.items) }
{
    let Some((first, rest)) = block.items.as_slice().split_first() else {
        return Ok(());
    };
    push_named(spots, block.head().is_some(), *first)?;
    let mut before = first.token.kind;
    for item in rest {
        push_use(spots, before, *item)?;
        before = item.token.kind;
    }
    Ok(())
}

/// The same spots in no more memory than they need.
fn fitted(spots: List<Spot<'_>>) -> List<Spot<'_>>
    ensures { result ≡ spots.entry }
{
    let mut spots = spots.into_vec();
    spots.shrink_to_fit();
    List::from_vec(spots)
}

/// How many items are names.
fn name_count(sections: &[Section<'_>]) -> usize {
    let mut count = 0usize;
    for section in sections {
        for item in section.block.items.as_slice() {
            if matches!(item.token.kind, Kind::Name) {
                count = count.saturating_add(1);
            }
        }
    }
    count
}

/// The places in a text.
pub(crate) fn places_of<'t>(
    alloc: Global,
    sections: &[Section<'t>],
) -> Result<List<Spot<'t>>, AllocError>
    ensures { IfOk result (λ spots. map places.named_at spots ≡ flat_map (λ section. places.places_in section.block.items) sections.now) }
{
    let mut spots = List::from_vec(Vec::with_capacity(alloc, name_count(sections))?);
    for section in sections {
        push_places(&mut spots, &section.block)?;
    }
    Ok(fitted(spots))
}

/// The places of a name in a text, in its order. Each is found when it is asked for, so that none needs memory.
#[derive(Drop)]
pub struct PlacesOfName<'s, 't> {
    name: Folded<'s>,
    spots: &'s [Spot<'t>],
    /// How many spots have been looked at.
    passed: usize,
}

impl<'s, 't> PlacesOfName<'s, 't> {
    /// The places of a name among these.
    pub(crate) fn among(spots: &'s [Spot<'t>], name: Folded<'s>) -> PlacesOfName<'s, 't>
        ensures { places.places_left result ≡ places.places_among name.entry spots.now }
    {
        PlacesOfName {
            name,
            spots,
            passed: 0,
        }
    }
}

impl Iterator for PlacesOfName<'_, '_> {
    ghost use Rattle.std.specs.Iterator.{YieldsFirst, item_count};
    ghost use Rattle.abnf_names.specs.Places.{places_left};

    type Item = NamePlace;

    ghost next_gives = { YieldsFirst places_left };

    ghost remaining = { item_count places_left };

    /// The next place of the name; `None` where no more follows. The places between are looked at one by one.
    fn next(&mut self) -> Option<NamePlace> {
        let (place, passed) = first_called(self.spots, self.passed, self.name)?;
        self.passed = passed;
        Some(place)
    }
}

/// The first place of a name behind so many spots, and how many are passed with it.
fn first_called(spots: &[Spot<'_>], from: usize, name: Folded<'_>) -> Option<(NamePlace, usize)>
    ensures { let left = places.places_among name.entry (drop from spots.now) in
        MatchOption result (left ≡ []) (λ r. left ≡ r.0 ∷ places.places_among name.entry (drop r.1 spots.now)) }
{
    for at in from..spots.len() {
        let spot = &spots[at];
        if name == spot.name {
            let place = NamePlace {
                place: spot.place,
                defines: spot.defines,
            };
            return Some((place, at + 1));
        }
    }
    None
}

/// Whether a spot holds what stands behind a point, which is an empty place.
fn holds(spot: &Spot<'_>, at: Place) -> bool
    ensures { result ≡ places.holds at (places.named_at spot.now) }
{
    spot.place.line == at.line && spot.place.start <= at.start && at.start < spot.place.end
}

/// Whether a spot ends at a point.
fn ends_at(spot: &Spot<'_>, at: Place) -> bool
    ensures { result ≡ places.ends_at at (places.named_at spot.now) }
{
    spot.place.line == at.line && spot.place.end == at.start
}

/// The first spot that holds what stands behind a point.
fn first_holding<'s, 't>(spots: &'s [Spot<'t>], at: Place) -> Option<&'s Spot<'t>>
    ensures { option_map (λ spot. spot.now) result ≡ find (λ spot. places.holds at (places.named_at spot)) spots.now }
{
    spots.iter().find(|spot| holds(spot, at))
}

/// The first spot that ends at a point.
fn first_ending<'s, 't>(spots: &'s [Spot<'t>], at: Place) -> Option<&'s Spot<'t>>
    ensures { option_map (λ spot. spot.now) result ≡ find (λ spot. places.ends_at at (places.named_at spot)) spots.now }
{
    spots.iter().find(|spot| ends_at(spot, at))
}

/// The first spot that holds what stands behind a point, which is an empty place, else the first that ends there; `None`
/// where none does. All spots may be looked at.
pub fn found_at<'s, 't>(spots: &'s [Spot<'t>], at: Place) -> Option<&'s Spot<'t>>
    ensures { option_map (λ spot. spot.now) result ≡ places.spot_at at spots.now }
{
    match first_holding(spots, at) {
        Some(spot) => Some(spot),
        None => first_ending(spots, at),
    }
}
