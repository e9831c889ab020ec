//! Least lengths of small random grammars, with cycles, repetitions and names that stand for nothing.

use super::grammars::{Random, grammar_text};
use super::lengths::entries_of;
use std::test::Fail;

#[test]
fn least_lengths_are_those_by_rounds(rt: HostRuntime) -> Result<(), Fail> {
    let mut random = Random::new(20261122);
    let mut entries = 0_usize;
    for _ in 0..400 {
        let text = grammar_text(rt.alloc(), &mut random)?;
        match entries_of(rt.alloc(), text.as_str())? {
            Some(count) => entries = entries.saturating_add(count),
            None => panic!(rt; "of {text}"),
        }
    }
    // Each of the five rules has a root and a part of it at least.
    assert!(rt; entries >= 4_000);
    Ok(())
}
