//! Laws of places.

ghost use Rattle.std.specs.Prelude.{◌≡◌, ℕ, List};
ghost use Rattle.abnf_names.specs.Places.{Named};
ghost use Rattle.abnf_names.specs.Rules.{HasPlaces};

/// A text has one list of places, that of its grammar. So there is one name at an offset, and one list of the wanted
/// places of a name.
pub fn places_are_unique()
    ensures { (text : List ℕ) (ours theirs : List Named) → HasPlaces text ours → HasPlaces text theirs → ours ≡ theirs }
{}
