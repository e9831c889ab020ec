//! What crosses the crates: what a session heeds and how requests are refused, how the server ends, and sessions that are full.
//!
//! The crates below prove what each call answers. Here is shown, with worked values, that the calls succeed where memory is ample, which
//! no contract can show. Whole sessions, as bytes, run through the built program (`tools/session_rows.py`).

mod bodies;
mod endings;
mod full;
