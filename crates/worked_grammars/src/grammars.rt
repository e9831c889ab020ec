//! The texts of small random grammars.

use std::alloc::{AllocError, Global};

/// Numbers that look random, the same in each run.
#[derive(Drop)]
pub(crate) struct Random {
    state: u64,
}

impl Random {
    pub(crate) fn new(state: u64) -> Random {
        Random { state }
    }

    /// A number below another.
    fn below(&mut self, count: u32) -> u32 {
        self.state = self
            .state
            .wrapping_mul(6364136223846793005)
            .wrapping_add(1442695040888963407);
        ((self.state >> 33) as u32).checked_rem(count).unwrap_or(0)
    }
}

/// A repeat; the greatest one makes lengths that reach the greatest length.
fn repeat(number: u32) -> &'static str {
    match number {
        0 => "2",
        1 => "*",
        2 => "1*",
        3 => "3*2",
        4 => "0",
        5 => "*2",
        6 => "4294967295",
        _ => "",
    }
}

/// A text, a range, or a name that stands for a rule or for nothing.
fn word(number: u32) -> &'static str {
    match number {
        0 => "\"\"",
        1 => "\"x\"",
        2 => "\"yz\"",
        3 => "%x41-5A",
        4 => "%x5A-41",
        5 => "%d13.10",
        6 => "<prose>",
        _ => "nope",
    }
}

/// A rule's name, or an alternation in brackets.
fn part(number: u32) -> &'static str {
    match number {
        0 => "a",
        1 => "b",
        2 => "c",
        3 => "d",
        4 => "e",
        5 => "(a / \"x\")",
        6 => "(b c)",
        7 => "[d]",
        _ => "(e / c / %x30)",
    }
}

fn element(random: &mut Random) -> &'static str {
    if random.below(2) == 0 {
        word(random.below(8))
    } else {
        part(random.below(9))
    }
}

fn push_element(text: &mut String, random: &mut Random) -> Result<(), AllocError> {
    text.push_str(" ")?;
    text.push_str(repeat(random.below(12)))?;
    text.push_str(element(random))
}

fn push_row(text: &mut String, random: &mut Random) -> Result<(), AllocError> {
    for _ in 0..random.below(3) {
        push_element(text, random)?;
    }
    push_element(text, random)
}

fn push_rule(text: &mut String, random: &mut Random, head: &str) -> Result<(), AllocError> {
    text.push_str(head)?;
    push_row(text, random)?;
    for _ in 0..random.below(3) {
        text.push_str(" /")?;
        push_row(text, random)?;
    }
    text.push_str("\n")
}

/// The text of a grammar with the rules a, b, c, d and e.
pub(crate) fn grammar_text(alloc: Global, random: &mut Random) -> Result<String, AllocError> {
    let mut text = String::new(alloc);
    for head in ["a =", "b =", "c =", "d =", "e ="] {
        push_rule(&mut text, random, head)?;
    }
    Ok(text)
}
