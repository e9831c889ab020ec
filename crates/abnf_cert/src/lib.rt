//! Certificates of the least lengths that the parts of a grammar generate, and the check of one.
//!
//! A certificate says of each node of a grammar that it generates nothing, or the least length of what it generates, with the number
//! of nested references that this takes and, at a choice, which part has it. [`check`] says yes exactly where each entry follows from
//! those of the nodes right below it, in one pass over the nodes, and then each entry is right, whoever made the certificate
//! ([`accepted_is_right`]): so who trusts this crate need not trust what finds the lengths. Two certificates that are accepted for one
//! grammar agree, but for heights and choices where a length is the greatest ([`accepted_agree`]).
//!
//! [`write_cert`] and [`read_cert`] give the text of a certificate and read it back. Each certificate has one text
//! ([`texts_are_unique`]), which reads as that certificate ([`texts_are_read`]).
#![tactic(auto)]

mod checker;
pub mod entries;
mod entry;
mod fault;
mod laws;
mod read;
mod text;

pub use checker::check;
pub use entry::{Cert, Entry};
pub use fault::CertFault;
pub use laws::{accepted_agree, accepted_is_right, texts_are_read, texts_are_unique};
pub use read::read_cert;
pub use text::write_cert;
