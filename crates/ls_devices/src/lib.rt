//! Devices: where the bytes of a session come from and go to, and why a run over them breaks off.
//!
//! A [`Source`] gives bytes and a [`Sink`] takes them. Each says in its contract what it gave or took, where that is known, and whether it
//! has failed. [`ReadFrom`] and [`WriteTo`] are those over std's readers and writers. [`listen`] reads a source: it cuts what comes into
//! frames, and a [`Listener`] hears the message in each. Both ways to serve, on one thread and on several, stand on them.
//! [`inputs_have_one_end`] says when an input can be heard in one way alone.
#![tactic(auto)]

mod device;
mod fault;
mod laws;
mod reading;
mod streams;
mod write;

pub use device::{DeviceFault, Sink, Source};
pub use fault::{READ_MOST, READS_END, ServeFault};
pub use laws::inputs_have_one_end;
pub use reading::{Listener, ReaderEnd, listen};
pub use streams::{ReadFrom, WriteTo};
pub use write::{write_all, write_and_flush};
