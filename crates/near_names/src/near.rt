//! The nearest of known names.

ghost use Rattle.std.specs.Prelude.{◌≡◌, IfOk, IfSome, is_some, length, map, nat_eq};
ghost use Rattle.std.specs.Option.{option_map};
ghost use Rattle.abnf_token.specs.Folded.{lowercase};
ghost use Rattle.strsim.specs.Edits.{levenshtein_row};
ghost use Rattle.near_names.specs.Near as spec;

use std::alloc::{AllocError, Global};
use strsim::generic_levenshtein;

/// Names of this many letters are compared, so that each comparison has a bound.
const FEWEST: usize = 2;

const MOST: usize = 64;

/// Whether a name is compared at all.
fn is_compared(name: &str) -> bool
    ensures { result ≡ spec.is_compared_name name.now }
{
    FEWEST <= name.len() && name.len() <= MOST
}

/// A name's letters, capitals made small.
fn small(alloc: Global, name: &str) -> Result<Vec<u8>, AllocError>
    ensures { IfOk result (λ letters. letters.items ≡ lowercase name.now) }
{
    let mut letters = Vec::from_slice(alloc, name.as_bytes())?;
    letters.make_ascii_lowercase();
    Ok(letters)
}

/// How many letters are put in, taken out or changed at least where one name is made of the other.
fn distance(alloc: Global, name: &str, other: &str) -> Result<usize, AllocError>
    ensures { IfOk result (λ letters. letters ≡ spec.distance name.now other.now) }
{
    let (from, to) = (small(alloc, name)?, small(alloc, other)?);
    generic_levenshtein(alloc, from.as_slice(), to.as_slice())
}

/// How far near names are from each other at most.
fn reach(name: &str, other: &str) -> usize
    ensures { result ≡ spec.reach name.now other.now }
{
    (name.len().max(other.len()) / 3).max(1)
}

/// How far another name is, where it is near.
fn near_distance(alloc: Global, name: &str, other: &str) -> Result<Option<usize>, AllocError>
    ensures { IfOk result (λ letters. letters ≡ spec.near_distance name.now other.now) }
{
    if !is_compared(name) || !is_compared(other) {
        return Ok(None);
    }
    let letters = distance(alloc, name, other)?;
    if letters <= reach(name, other) {
        Ok(Some(letters))
    } else {
        Ok(None)
    }
}

/// The known name that is the fewest letters away from this one, in any case of letters; of those that are as near it is
/// the first. `None` where none is near: a near one is at most a third of the longer name's letters away, or one letter.
///
/// Each known name is compared, in time by the product of both lengths; but a name of one letter, or of more than 64, is
/// passed over.
///
/// # Errors
///
/// Where an allocation is refused.
pub fn nearest<'k>(
    alloc: Global,
    name: &str,
    known: &[&'k str],
) -> Result<Option<&'k str>, AllocError>
    ensures { IfOk result (λ found. option_map (λ other. other.now) found ≡ spec.nearest name.now (map (λ other. other.now) known.now)) }
{
    let mut found = None;
    let mut least = 0;
    let mut at = known.len();
    while at > 0 {
        at -= 1;
        if let Some(letters) = near_distance(alloc, name, known[at])? {
            if found.is_none() || letters <= least {
                found = Some(known[at]);
                least = letters;
            }
        }
    }
    Ok(found)
}
