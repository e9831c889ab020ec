//! Steps in random order, and then all that are left.

use super::dice::Dice;
use ls_steps::Step;
use std::alloc::{AllocError, Global};

fn step(dice: &mut Dice) -> Step {
    match dice.below(8) {
        0 | 1 | 2 => Step::Message,
        3 | 4 => Step::Take,
        5 | 6 => Step::Finish(dice.below(3) as usize),
        _ => Step::Send,
    }
}

fn push_times(steps: &mut Vec<Step>, step: Step, times: usize) -> Result<(), AllocError> {
    for _ in 0..times {
        steps.push(step)?;
    }
    Ok(())
}

/// Steps for so many messages, of which each makes one job at the most, and has one thing told.
pub(crate) fn steps(alloc: Global, seed: u64, messages: usize) -> Result<Vec<Step>, AllocError> {
    let mut dice = Dice::new(seed);
    let mut steps = Vec::new(alloc);
    for _ in 0..messages {
        for _ in 0..3 {
            steps.push(step(&mut dice))?;
        }
    }
    push_times(&mut steps, Step::Message, messages)?;
    push_times(&mut steps, Step::Take, messages)?;
    push_times(&mut steps, Step::Finish(0), messages)?;
    push_times(&mut steps, Step::Send, messages)?;
    Ok(steps)
}
