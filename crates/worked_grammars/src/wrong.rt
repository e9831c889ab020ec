//! Certificates with one wrong entry.

use super::rounds::is_at_top;
use abnf_cert::entries::entry_of;
use abnf_cert::{Cert, Entry, check};
use abnf_names::Grammar;
use std::alloc::{AllocError, Global};

/// A wrong length, height or choice in place of the right one, or none at all.
fn other(length: u64, height: u64, choice: u64, kind: u32) -> Entry {
    match kind {
        0 => Entry::Nothing,
        1 => Entry::Least {
            length: length.saturating_add(1),
            height,
            choice,
        },
        2 => Entry::Least {
            length,
            height: height ^ 1,
            choice,
        },
        _ => Entry::Least {
            length,
            height,
            choice: choice ^ 1,
        },
    }
}

/// A wrong entry in place of a right one. Of the greatest length other heights and choices may be right too.
fn wrong(entry: Entry, kind: u32) -> Entry {
    if is_at_top(entry) {
        return Entry::Nothing;
    }
    match entry {
        Entry::Nothing => Entry::Least {
            length: u64::from(kind),
            height: 0,
            choice: 0,
        },
        Entry::Least {
            length,
            height,
            choice,
        } => other(length, height, choice, kind),
    }
}

/// The certificate with these entries but for one.
fn changed(
    alloc: Global,
    entries: &[Entry],
    number: usize,
    entry: Entry,
) -> Result<Cert, AllocError> {
    let mut entries = Vec::from_slice(alloc, entries)?;
    if number < entries.len() {
        entries[number] = entry;
    }
    Ok(Cert::new(entries))
}

fn is_refused(
    alloc: Global,
    grammar: &Grammar<'_>,
    entries: &[Entry],
    number: usize,
    kind: u32,
) -> Result<bool, AllocError> {
    let entry = wrong(entry_of(entries, number), kind);
    let cert = changed(alloc, entries, number, entry)?;
    Ok(!check(grammar, &cert))
}

/// Whether each wrong entry of a node is refused.
fn are_refused(
    alloc: Global,
    grammar: &Grammar<'_>,
    entries: &[Entry],
    number: usize,
) -> Result<bool, AllocError> {
    for kind in 0..4u32 {
        if !is_refused(alloc, grammar, entries, number, kind)? {
            return Ok(false);
        }
    }
    Ok(true)
}

/// Of how many nodes each wrong entry is refused, where all others are right. None where one is accepted.
pub(crate) fn all_refused(
    alloc: Global,
    grammar: &Grammar<'_>,
    entries: &[Entry],
) -> Result<Option<usize>, AllocError> {
    for number in 0..entries.len() {
        if !are_refused(alloc, grammar, entries, number)? {
            return Ok(None);
        }
    }
    Ok(Some(entries.len()))
}
