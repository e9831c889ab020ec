//! The public surface of the server's libraries: each type with all its variants and fields, and each call with its signature.
//!
//! Others rely on these names, so each gate compiles them, by the crate that each belongs to. A value is put into each variant and each
//! field, each enum is matched to its end, and each call is made with its types written out. A name that is gone, a variant more, another
//! argument or another error doesn't compile here. Nobody calls these functions, and they say nothing of what a call does: that is the
//! contract of the call. Where a call has conditions, the function that makes it has them too.
//!
//! A call that takes no memory shows it by its type: it gives no `Result`. [`Framer::end`](ls_frame::Framer::end),
//! [`Done::answer`](ls_answers::Done::answer) and [`Board::close`](ls_workers::Board::close) give one for another cause, and take none
//! either.
//!
//! Where another form stands than a reader would write first, docs/DECISIONS.md says why ("Names and forms of the public surface").
#![tactic(auto)]

pub mod answers;
pub mod cert;
pub mod desk;
pub mod faults;
pub mod frame;
pub mod least;
pub mod lint;
pub mod names;
pub mod rpc;
pub mod server;
pub mod syntax;
pub mod text;
pub mod token;
pub mod workers;
