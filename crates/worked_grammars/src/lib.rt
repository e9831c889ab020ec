//! Worked grammars: what no program's output shows of `ls_text`, `abnf_syntax`, `abnf_names` and `abnf_places`, and random
//! grammars for `abnf_cert` and `abnf_least`.
//!
//! They stand above the crates that they test, since a crate with tests is proved twice, and those take long.
#![tactic(auto)]

#[cfg(test)]
mod check;
#[cfg(test)]
mod grammars;
#[cfg(test)]
mod lengths;
#[cfg(test)]
mod lines;
#[cfg(test)]
mod names;
#[cfg(test)]
mod one_name;
#[cfg(test)]
mod random;
#[cfg(test)]
mod rounds;
#[cfg(test)]
mod sweeps;
#[cfg(test)]
mod wrong;
