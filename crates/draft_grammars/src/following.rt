//! The text of a grammar, made of that of another one.

ghost use Rattle.std.specs.Prelude.{◌≡◌, ◌≤◌, IfOk, IfSome, length};
ghost use Rattle.std.specs.Str.{chars};

use crate::rename::edited;
use ls_lists::Text;
use ls_text::{Edit, Encoding, Range, Snapshot};
use std::alloc::{AllocError, Global};

// How many bytes two texts have alike at their front.
fn same_front(ours: &[u8], theirs: &[u8]) -> usize
    ensures ours { result ≤ length ours.now }
    ensures theirs { result ≤ length theirs.now }
{
    let mut count = 0;
    'bytes: while count < ours.len() && count < theirs.len() && ours[count] == theirs[count] {
        count += 1;
    }
    count
}

// How many bytes two texts have alike at their back.
fn same_back(ours: &[u8], theirs: &[u8]) -> usize
    ensures ours { result ≤ length ours.now }
    ensures theirs { result ≤ length theirs.now }
{
    let mut count = 0;
    'bytes: while count < ours.len()
        && count < theirs.len()
        && ours[ours.len() - 1 - count] == theirs[theirs.len() - 1 - count]
    {
        count += 1;
    }
    count
}

// An edit of a text, given as a snapshot too, by which another one may come of it: of what stands between their fronts and their backs.
fn edit_between(
    alloc: Global,
    snapshot: &Snapshot,
    old: &str,
    new: &str,
) -> Result<Option<Edit>, AllocError> {
    let front = same_front(old.as_bytes(), new.as_bytes());
    let back = same_back(&old.as_bytes()[front..], &new.as_bytes()[front..]);
    let (Some(before), Some(gone), Some(put)) = (
        old.get(..front),
        old.get(front..old.len() - back),
        new.get(front..new.len() - back),
    ) else {
        return Ok(None);
    };
    let start = before.chars().count();
    let end = start.saturating_add(gone.chars().count());
    let range = Range {
        start: snapshot.position_of(start, Encoding::Utf32),
        end: snapshot.position_of(end, Encoding::Utf32),
    };
    Ok(Some(Edit {
        range: Some(range),
        text: Text::from_str(alloc, put)?,
    }))
}

/// A text as a snapshot, made by one edit of another one, which it shares but for the lines of the edit; `None` where no such edit is found.
pub fn made_of(
    alloc: Global,
    snapshot: &Snapshot,
    old: &str,
    new: &str,
) -> Result<Option<Snapshot>, AllocError>
    ensures { IfOk result (λ made. IfSome made (λ text. text ≡ chars new.now)) }
{
    let Some(edit) = edit_between(alloc, snapshot, old, new)? else {
        return Ok(None);
    };
    let Some(made) = edited(snapshot, &[edit], Encoding::Utf32)? else {
        return Ok(None);
    };
    // (the edit isn't proved to be right, so what it gives is compared)
    let text = made.to_text()?;
    if text.as_str() == new {
        Ok(Some(made))
    } else {
        Ok(None)
    }
}
