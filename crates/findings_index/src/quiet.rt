//! Blocks in which nothing is found, by their digests.

ghost use Rattle.std.specs.Prelude.{◌≡◌, ◌≤◌, ◌&&◌, length, not, slice_range};
ghost use Rattle.std.specs.List.{list_any};
ghost use Rattle.abnf_lint.specs.Marks.{mark_at};
ghost use Rattle.findings_index.specs.own.Flags.{is_marked_name};

use crate::digest::BlockDigest;
use crate::evaluate::is_marked;
use crate::found_in::BlockTold;
use crate::word::Word;

/// Whether nothing is found at the head of a block of which this is told.
pub(crate) fn is_silent(told: BlockTold) -> bool
    ensures { result ≡ (not told.is_duplicate && (not told.has_no_base && not (told.is_first && told.is_idle))) }
{
    !told.is_duplicate && !told.has_no_base && !(told.is_first && told.is_idle)
}

/// Whether a word is a marked name.
fn is_strange(word: Word, strange: &[bool]) -> bool
    ensures { result ≡ is_marked_name (mark_at strange.now) word }
{
    match word {
        Word::Name(number) => is_marked(strange, number as usize),
        _ => false,
    }
}

/// Whether one of these words is a marked name.
fn one_is_strange(words: &[Word], strange: &[bool]) -> bool
    ensures { result ≡ list_any (is_marked_name (mark_at strange.now)) words.now }
{
    words.iter().any(|word| is_strange(*word, strange))
}

/// Whether one of the words of a block is a marked name.
pub(crate) fn uses_strange(words: &[Word], block: BlockDigest, strange: &[bool]) -> bool
    ensures { block.start ≤ block.end → block.end ≤ length words.now
        → result ≡ list_any (is_marked_name (mark_at strange.now)) (slice_range words.now block.start block.end) }
{
    match words.get(block.start as usize..block.end as usize) {
        Some(words) => one_is_strange(words, strange),
        None => true,
    }
}
