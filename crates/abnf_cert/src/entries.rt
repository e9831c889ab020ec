//! What entries give together: the rules by which the entry of a node follows from those of the nodes right below it.

ghost use Rattle.std.specs.Prelude.{◌≡◌, ◌↔◌, map, IsTrue};
ghost use Rattle.abnf_cert.specs.declared.entry.Entry.TheVariants.{Least};
ghost use Rattle.abnf_cert.specs.Accepted.{HasPair, all_in_a_row, entry_at, in_a_row, times};

use crate::entry::Entry;
use abnf_parts::NodeNo;

/// The entry of a node, by its number from 0: `Nothing` where there is none.
pub fn entry_of(entries: &[Entry], number: usize) -> Entry
    ensures { result ≡ entry_at entries.now number }
{
    match entries.get(number) {
        Some(entry) => *entry,
        None => Entry::Nothing,
    }
}

/// The entry of a text of so many characters: that length, and height 0.
pub fn characters(length: usize) -> Entry
    ensures { result ≡ Least length 0 0 }
{
    Entry::Least {
        length: length as u64,
        height: 0,
        choice: 0,
    }
}

/// The entry of two parts, one after the other: the sum of the lengths, cut off at 18446744073709551615, and the greater
/// height; `Nothing` where one is.
pub fn combine(left: Entry, right: Entry) -> Entry
    ensures { result ≡ in_a_row left right }
{
    match (left, right) {
        (
            Entry::Least { length, height, .. },
            Entry::Least {
                length: other_length,
                height: other_height,
                ..
            },
        ) => Entry::Least {
            length: length.saturating_add(other_length),
            height: height.max(other_height),
            choice: 0,
        },
        _ => Entry::Nothing,
    }
}

/// The entry of the parts with these numbers, one after another: the sum of the lengths, cut off at 18446744073709551615,
/// and the greatest height; `Nothing` where one is. Time goes by their number.
pub fn row(entries: &[Entry], numbers: &[NodeNo]) -> Entry
    ensures { result ≡ all_in_a_row (map (entry_at entries.now) numbers.now) }
{
    let mut whole = characters(0);
    let mut at = numbers.len();
    while at > 0 {
        at -= 1;
        whole = combine(entry_of(entries, numbers[at].get()), whole);
    }
    whole
}

/// The entry of a part that stands so many times: `least` times its length, cut off at 18446744073709551615, and its
/// height; the length 0 where that is no time, even of `Nothing`.
pub fn repeated(least: u32, entry: Entry) -> Entry
    ensures { result ≡ times least entry }
{
    if least == 0 {
        return characters(0);
    }
    match entry {
        Entry::Nothing => Entry::Nothing,
        Entry::Least { length, height, .. } => Entry::Least {
            length: u64::from(least).saturating_mul(length),
            height,
            choice: 0,
        },
    }
}

/// Whether an entry has this length and this height. `Nothing` has none.
pub fn has_pair(entry: Entry, length: u64, height: u64) -> bool
    ensures { IsTrue result ↔ HasPair length height entry }
{
    match entry {
        Entry::Nothing => false,
        Entry::Least {
            length: own_length,
            height: own_height,
            ..
        } => own_length == length && own_height == height,
    }
}
