//! Texts of the rows, and what is gathered of them.

use findings_files::{FileFault, Snapshot};
use origins::Gathered;
use std::alloc::Global;

/// The snapshot of a text.
pub fn snapshot(alloc: Global, text: &str) -> Result<Snapshot, FileFault> {
    Ok(Snapshot::of_text(alloc, String::from_str(alloc, text)?)?)
}

/// Whether this grammar was gathered, whose characters begin in the file at these places, and none behind the last.
pub fn is_gathered(gathered: &Gathered, grammar: &str, places: &[(usize, usize)]) -> bool {
    if gathered.as_str() != grammar {
        return false;
    }
    for (offset, origin) in places {
        if gathered.origin_of(*offset) != Some(*origin) {
            return false;
        }
    }
    gathered.origin_of(grammar.chars().count()) == None
}
