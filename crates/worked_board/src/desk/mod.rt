//! Worked sessions at a desk: what each call answers, and what is kept for sending.
//!
//! They stand above the crate that they test, since a crate with tests is proved twice. No contract says that there is memory: here each
//! call succeeds once, up to the limits of a session, on desks whose journals are short and long. Each test lets its desk go before it
//! judges, at one place, since a way out of a function with a desk in hand is dear to prove.

mod answers;
mod cancels;
mod checkpoints;
mod limits;
mod refusals;
mod steps;
mod strange;
mod whole;
