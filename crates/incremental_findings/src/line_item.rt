//! What an item says of blocks.

ghost use Rattle.std.specs.Prelude.{◌≡◌, IsTrue, false, not, slice_range};
ghost use Rattle.abnf_token.specs.Marks.{IsMarkOf};
ghost use Rattle.abnf_digests.specs.BareItems.{bare_text};
ghost use Rattle.incremental_findings.specs.own.Walks as spec;

use abnf_syntax::Row;
use abnf_token::{Folded, Kind, TokenMark, token_at};

/// What the next item says besides its token, by what stands before it.
#[derive(Clone, Copy)]
pub struct Stand {
    /// Whether it is the first of a block.
    pub begins: bool,
    /// Whether something stands between the item before and it.
    pub apart: bool,
}

/// An item of a line.
#[derive(Clone, Copy)]
pub struct LineItem<'s> {
    pub stand: Stand,
    pub kind: Kind,
    pub text: &'s str,
}

impl Stand {
    /// At the start of a line, which begins a block or doesn't.
    pub fn at_line(begins: bool) -> Stand
        ensures { result ≡ spec.stand begins (not begins) }
    {
        Stand {
            begins,
            apart: !begins,
        }
    }

    /// Behind an item.
    pub fn behind_item() -> Stand
        ensures { result ≡ spec.stand false false }
    {
        Stand {
            begins: false,
            apart: false,
        }
    }

    /// Behind a blank or a comment.
    pub fn behind_gap(self) -> Stand
        ensures { result ≡ spec.stand self.begins (not self.begins) }
    {
        Stand::at_line(self.begins)
    }
}

/// The item with one of a line's marks.
pub fn item_at<'s>(row: &Row<'s>, stand: Stand, mark: &TokenMark) -> LineItem<'s>
    requires { IsMarkOf row.now.text.now mark.now }
    ensures { spec.bare_item_of result ≡ spec.bare_item_at row.now.text.now stand mark.now }
{
    let token = token_at(row.text, 0, mark);
    LineItem {
        stand,
        kind: token.kind,
        text: token.text,
    }
}

/// Whether what matters of the texts of two tokens of a kind is the same.
fn say_the_same(kind: Kind, ours: &str, theirs: &str) -> bool
    ensures { IsTrue result → bare_text kind ours.now ≡ bare_text kind theirs.now }
{
    match kind {
        Kind::Name => Folded(ours) == Folded(theirs),
        Kind::Quoted | Kind::Prose => true,
        _ => ours == theirs,
    }
}

/// Whether two items say the same.
pub fn are_alike(ours: &LineItem, theirs: &LineItem) -> bool
    ensures { IsTrue result → spec.bare_item_of ours.now ≡ spec.bare_item_of theirs.now }
{
    ours.stand.begins == theirs.stand.begins
        && ours.stand.apart == theirs.stand.apart
        && ours.kind == theirs.kind
        && say_the_same(ours.kind, ours.text, theirs.text)
}
