//! The session of one client over a desk, step by step.
//!
//! A [`Conversation`] hears the client's messages, holds the jobs that its one worker has taken, and hands out the frames of what is said,
//! in any order of these steps. [`run_steps`] does so for a whole input and a list of steps, and writes just the bytes that these steps say
//! on its messages.
#![tactic(auto)]

mod at_desk;
mod conversation;
mod laws;
mod plain;
mod steps;

pub use conversation::Conversation;
pub use laws::{
    runs_are_unique, runs_exist, runs_have_events, sessions_are_runs, sessions_are_unique,
    sessions_exist,
};
pub use steps::{Run, Step, run_steps};
