//! What is wrong or doubtful in a grammar's text.
//!
//! [`findings`] gives all that is found in a text, in its order. What counts as a finding is a relation on texts: a row of the table in
//! specs/Rows holds. A [`Finding`] has a place, a [`Code`] and perhaps a name, and gives its message. Each text has findings
//! ([`findings_exist`]), and no others ([`findings_are_unique`]).
//!
//! What is found in a single block is found at its head ([`push_head`]), and at its fault or its items ([`push_said`]), by what is known
//! of the head ([`HeadTold`]) and of names ([`Names`]).
//!
//! [`productive_rules`] marks the rules that generate a string. That is a question of yes or no, so it is answered without lengths and
//! without a certificate: a part yields something where enough of the parts below it do ([`yielding_is_generating`]). [`findings_in`] is
//! what is found in a grammar's text, where the other rules are the unproductive ones.
#![tactic(auto)]

mod block;
mod empty;
mod finding;
mod findings_of;
mod item;
mod laws;
mod message;
mod productive;
mod sweep;
mod told;
mod unproductive;
mod without_cert;

pub use empty::{is_above, is_empty_number, is_turned};
pub use finding::{Code, Finding};
pub use findings_of::{findings, findings_marked};
pub use item::Names;
pub use laws::{findings_are_unique, findings_exist, yielding_is_generating};
pub use message::Severity;
pub use productive::productive_rules;
pub use told::{HeadTold, push_head, push_said};
pub use without_cert::findings_in;
