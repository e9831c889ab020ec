//! The law of a renamed line.

ghost use Rattle.std.specs.Prelude.{◌≡◌, true, List};
ghost use Rattle.abnf_token.specs.Classes.{Text, is_name};
ghost use Rattle.abnf_token.specs.Renamed.{Piece, KeepsCut, KeepsTokens};

/// A line in which each place of a name holds another name has the same tokens but for that name: none is made, lost, joined or cut.
///
/// A place of a name is a token that is the name, compared without case, unless it stands right behind a number or a character that begins no
/// token: such a name is the rest of something misspelled, and stays as it is. So do comments, prose and quoted texts.
pub fn renames_keep_tokens()
    ensures pieces { (old new : Text) (pieces : List Piece) → is_name new ≡ true → KeepsCut old new pieces }
    ensures tokens { (old new line : Text) → is_name new ≡ true → KeepsTokens old new line }
{}
