//! Least lengths of a grammar against those by rounds, and against wrong ones.

use super::check::snapshot;
use super::rounds::are_by_rounds;
use super::wrong::all_refused;
use abnf_cert::check;
use abnf_least::least;
use abnf_names::Grammar;
use ls_text::Snapshot;
use std::alloc::{AllocError, Global};
use std::test::Fail;

/// How many entries the certificate of least lengths has. It is accepted and has the entries by rounds, and each other one is refused that has
/// a wrong entry in place of one of these; else there is none.
fn least_of(alloc: Global, grammar: &Grammar<'_>) -> Result<Option<usize>, AllocError> {
    let cert = least(alloc, grammar)?;
    if !check(grammar, &cert) || !are_by_rounds(alloc, grammar, cert.entries())? {
        return Ok(None);
    }
    all_refused(alloc, grammar, cert.entries())
}

fn least_in(alloc: Global, text: &Snapshot) -> Result<Option<usize>, AllocError> {
    let grammar = Grammar::of(alloc, text)?;
    let least = least_of(alloc, &grammar);
    drop(grammar);
    least
}

/// The same of the grammar of a text.
pub(crate) fn entries_of(alloc: Global, text: &str) -> Result<Option<usize>, Fail> {
    let text = snapshot(alloc, text)?;
    Ok(least_in(alloc, &text)?)
}
