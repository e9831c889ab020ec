//! Random sessions in random steps: each reply is, byte for byte, the one that a plain session gives for the text that its document had
//! when the request was asked.
//!
//! A client opens, changes and closes two documents, asks about them and cancels what it asked. A run goes through all that it says in random
//! steps, and writes the same by a journal that begins anew after 1 to 4 events. What it must be told is found without the run: a new session
//! is served plainly, one message after the other, in which a document with that very text is opened and that one request is asked.

mod client;
mod dice;
mod frames;
mod messages;
mod plain;
mod replies;
mod schedule;
