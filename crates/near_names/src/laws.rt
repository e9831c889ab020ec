//! Laws of near names. The functions do nothing.

ghost use Rattle.std.specs.Prelude.{◌≡◌, List, ℕ, Option};
ghost use Rattle.near_names.specs.Near.{IsNearAnswer, nearest};

/// What is given is a nearest name, ahead of all that are as near, and where none is given no known name is near.
pub fn nearest_names_are_nearest()
    ensures { (name : List ℕ) (known : List (List ℕ)) → IsNearAnswer name known (nearest name known) }
{}

/// Among known names there is no other answer than [`nearest_names_are_nearest`] says.
pub fn nearest_names_are_unique()
    ensures { (name : List ℕ) (known : List (List ℕ)) (a b : Option (List ℕ)) → IsNearAnswer name known a → IsNearAnswer name known b → a ≡ b }
{}
