//! A law of whole inputs.
ghost use Rattle.std.specs.Prelude.{◌≡◌, List, Option, Some, ℕ};
ghost use Rattle.ls_devices.specs.Reading.{AlwaysHears, HearsInOneWay, HearsInput, IsRefusal};
ghost use Rattle.ls_devices.specs.declared.reading.ReaderEnd.TheVariants.{Ended};
ghost use Rattle.ls_session.specs.declared.turn.Status.{Status};

use crate::reading::Listener;

/// Each input has an end, and only one. Where a listener hears whatever message comes, it can hear the whole input. Where it hears each
/// message in one way at most, two runs over one input that end with a status have the same, and leave the listener the same, in whatever
/// pieces the input came and however much of it was read.
pub fn inputs_have_one_end<L: Listener>()
    ensures some { AlwaysHears L.is_ready L.hears → (input : List ℕ) (old : L) → L.is_ready old
        → (left : Option (List ℕ)) × (status : Status) × (new : L) × HearsInput L.hears L.breaks (IsRefusal L.Fault.from_gives) (Some input) left old (Ended status) new }
    ensures one { HearsInOneWay L.hears → (input : List ℕ) (left other : Option (List ℕ)) (old new last : L) (status again : Status)
        → HearsInput L.hears L.breaks (IsRefusal L.Fault.from_gives) (Some input) left old (Ended status) new
        → HearsInput L.hears L.breaks (IsRefusal L.Fault.from_gives) (Some input) other old (Ended again) last → (status ≡ again) × (new ≡ last) }
{}
