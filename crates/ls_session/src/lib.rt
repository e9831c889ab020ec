//! What each message of a client means in a session, and the body of all that the server says.
//!
//! A [`Session`] takes the bodies of a client's messages one after another. Each gives a [`Turn`]: nothing, an event for the desk, or the
//! end of the session. What waits to be said is an [`ls_machine::Out`], and [`body_of`] is its body. What a message does is fixed by the
//! stage of the session and its method. The methods and their parameters are those of LSP 3.17.
#![tactic(auto)]

mod bodies;
mod frame;
mod initialize;
mod kind;
mod language;
mod laws;
mod legend;
mod members;
mod params;
mod session;
mod turn;

pub use bodies::{body_of, refusal_body, refusal_to};
pub use frame::framed;
pub use laws::failures_have_their_code;
pub use ls_machine::ClientEvent;
pub use session::{Agreed, Session, Stage};
pub use turn::{Status, Turn};
