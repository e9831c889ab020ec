//! Which places of a name are wanted.

ghost use Rattle.std.specs.Prelude.{◌≡◌};
ghost use Rattle.abnf_places.specs.Wanted.{is_wanted};

/// Which places of a name are wanted.
#[derive(Clone, Copy, Debug, PartialEq, Eq)]
pub enum Wanted {
    /// Those that define it.
    Definitions,
    /// Those that don't.
    Uses,
    /// All of them.
    Both,
}

impl Wanted {
    /// Whether a place is wanted that defines its name, or one that doesn't.
    pub fn takes(self, defines: bool) -> bool
        ensures { result ≡ is_wanted self defines }
    {
        match self {
            Wanted::Definitions => defines,
            Wanted::Uses => !defines,
            Wanted::Both => true,
        }
    }
}
