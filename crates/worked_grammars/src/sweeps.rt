//! Least lengths of grammars where sweeps over the rules are given up, so that the search finds them.

use super::grammars::{Random, grammar_text};
use super::lengths::entries_of;
use std::alloc::{AllocError, Global};
use std::test::Fail;

/// How many rules of the chain stand in each of its two halves: more than there are sweeps each way.
const HALF: u32 = 20;

fn push_link(alloc: Global, text: &mut String, rule: u32, before: u32) -> Result<(), AllocError> {
    text.push_str(format!(in alloc; "z{rule} = z{before} \"x\"\n")?.as_str())
}

/// Rules each of which names the one before, which stands in the other half. So a sweep backwards or forwards gives one more its entry.
fn push_chain(alloc: Global, text: &mut String) -> Result<(), AllocError> {
    for pair in 0..HALF {
        push_link(alloc, text, 2 * pair + 1, 2 * pair)?;
    }
    text.push_str("z0 = e / \"y\"\n")?;
    for pair in 1..HALF {
        push_link(alloc, text, 2 * pair, 2 * pair - 1)?;
    }
    Ok(())
}

#[test]
fn least_lengths_are_those_by_rounds_where_sweeps_are_given_up(
    rt: HostRuntime,
) -> Result<(), Fail> {
    let mut random = Random::new(20261128);
    for _ in 0..8 {
        let mut text = grammar_text(rt.alloc(), &mut random)?;
        push_chain(rt.alloc(), &mut text)?;
        if entries_of(rt.alloc(), text.as_str())?.is_none() {
            panic!(rt; "of {text}");
        }
    }
    Ok(())
}
