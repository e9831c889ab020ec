//! Laws of streams of frames.
ghost use Rattle.std.specs.Prelude.{◌≡◌, ◌++◌, [], List, ℕ, Some};
ghost use Rattle.ls_frame.specs.Frames.{HasNoFrame, Stream};
ghost use Rattle.ls_frame.specs.Faults.{fault_of};
ghost use Rattle.ls_frame.specs.Feeds.{SoFar};
ghost use Rattle.ls_frame.specs.declared.fault.FrameFault.{FrameFault};

/// A list of bytes is a stream in one way: what a front of it holds stands first, a rest without a frame holds
/// nothing, and a fault ends the frames.
pub fn streams_are_unique()
    ensures front { (bytes more rest last : List ℕ) (xs ys : List (List ℕ)) → Stream bytes xs rest → Stream (bytes ++ more) ys last
        → (zs : List (List ℕ)) × (ys ≡ xs ++ zs) × Stream (rest ++ more) zs last }
    ensures alone { (bytes rest : List ℕ) (zs : List (List ℕ)) → HasNoFrame bytes → Stream bytes zs rest → (zs ≡ []) × (rest ≡ bytes) }
    ensures faulty { (bytes : List ℕ) (fault : FrameFault) → fault_of bytes ≡ Some fault → HasNoFrame bytes }
    ensures start { SoFar [] [] [] }
{}

/// Each list of bytes is a stream: frames with some contents, and a rest. With [`streams_are_unique`] there is one way.
pub fn streams_exist()
    ensures { (bytes : List ℕ) → (contents : List (List ℕ)) × (rest : List ℕ) × Stream bytes contents rest }
{}
