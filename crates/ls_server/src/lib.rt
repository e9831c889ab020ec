//! All that a program which serves needs, under one name: sessions and their bodies, runs by steps, devices, the server on one thread
//! ([`serve_plain`]) and on several ([`serve_threads`]), and the program's two commands with its endings.
//!
//! There is no code here. Each item is that of the crate that it comes from.
#![tactic(auto)]

pub use ls_devices::{DeviceFault, ReadFrom, ServeFault, Sink, Source, WriteTo};
pub use ls_plain::{inputs_have_one_output, serve_limited, serve_plain};
pub use ls_program::{
    Ending, cert_part, check_text, example_text, example_texts_are_accepted, example_texts_exist,
    keep_freed_blocks, read_cert_file,
};
pub use ls_session::{Session, Status, Turn, body_of, refusal_body};
pub use ls_steps::{Run, Step, run_steps};
pub use ls_text::Snapshot;
pub use ls_threads::{Gate, Served, serve_threads};
pub use text_files::{FileFault, read_text};
