//! Parts that may be settled next.

ghost use Rattle.std.specs.Prelude.{◌≡◌};
ghost use Rattle.abnf_least.specs.own.Queue.{comes_before};

/// A part that isn't settled, and the length and height that it is given. Candidates are ordered by length, then by height.
#[derive(Clone, Copy, PartialEq, Eq, PartialOrd, Ord)]
pub(crate) struct Candidate {
    pub length: u64,
    pub height: u64,
    pub number: usize,
}

impl Candidate {
    /// Whether its pair of a length and a height comes before that of another.
    pub fn comes_before(self, other: Candidate) -> bool
        ensures { result ≡ comes_before self other }
    {
        self.length < other.length || (self.length == other.length && self.height < other.height)
    }
}
