//! Worked sessions, by steps and on several threads: what a client sends, every byte that it is sent, and how the run ends. Beside them
//! what they are made of: frames, messages, and the lists and texts that these hold.
//!
//! They stand above the crates that they test, since a crate with tests is proved twice. No contract says that there is memory: here each
//! run by steps succeeds. No clause says that several threads ran, that one that waits wakes, or that a run ends, and ends well: here each
//! session is served by 1, 2, 4 and 8 workers, and one of them can only end where a hover is answered while another worker holds an earlier
//! one.
#![tactic(auto)]

#[cfg(test)]
mod across;
#[cfg(test)]
mod bodies;
#[cfg(test)]
mod by_steps;
#[cfg(test)]
mod closings;
#[cfg(test)]
mod devices;
#[cfg(test)]
mod endings;
#[cfg(test)]
mod frames;
#[cfg(test)]
mod lists;
#[cfg(test)]
mod many;
#[cfg(test)]
mod messages;
#[cfg(test)]
mod overtaking;
#[cfg(test)]
mod random;
#[cfg(test)]
mod replies;
#[cfg(test)]
mod sessions;
#[cfg(test)]
mod std_devices;
#[cfg(test)]
mod stepping;
#[cfg(test)]
mod written;
