//! What definitions say, token for token.

ghost use Rattle.std.specs.Prelude.{◌≡◌, map};
ghost use Rattle.abnf_syntax.specs.Kinds as kinds;
ghost use Rattle.joined_grammars.specs.Repeats as spec;

use abnf_syntax::Item;
use abnf_token::{Folded, Kind};

/// Whether a token is a name, by its class.
fn is_name(kind: Kind) -> bool
    ensures { result ≡ kinds.is_name_kind kind }
{
    match kind {
        Kind::Name => true,
        _ => false,
    }
}

/// Whether two items read the same.
fn is_same_word(ours: &Item<'_>, theirs: &Item<'_>) -> bool
    ensures { result ≡ spec.is_same_word (spec.word_of ours.now) (spec.word_of theirs.now) }
{
    let (ours, theirs) = (ours.token, theirs.token);
    if is_name(ours.kind) {
        is_name(theirs.kind) && Folded(ours.text) == Folded(theirs.text)
    } else {
        !is_name(theirs.kind) && ours.text == theirs.text
    }
}

/// Whether the items of two blocks read the same, one by one.
pub fn say_the_same(ours: &[Item<'_>], theirs: &[Item<'_>]) -> bool
    ensures { result ≡ spec.same_words (map spec.word_of ours.now) (map spec.word_of theirs.now) }
{
    if ours.len() != theirs.len() {
        return false;
    }
    for at in 0..ours.len() {
        if !is_same_word(&ours[at], &theirs[at]) {
            return false;
        }
    }
    true
}
