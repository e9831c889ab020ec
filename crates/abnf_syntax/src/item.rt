//! Items: the tokens of a block without its blanks and comments.

ghost use Rattle.std.specs.Prelude.{◌≡◌, true};
ghost use Rattle.abnf_syntax.specs.Kinds.{is_item};

use abnf_token::Token;

/// A token of a block that is no blank and no comment.
#[derive(Clone, Copy, Debug)]
pub struct Item<'t> {
    /// The token.
    pub token: Token<'t>,
    /// Whether a blank, a comment or a line end stands between it and the item before. It is false for the first item.
    pub apart: bool,
    pub ghost solid: { is_item token.kind ≡ true },
}
