//! `abnf_least`: least lengths and shortest sentences.
ghost use Rattle.std.specs.Prelude.{◌<◌, length};
ghost use Rattle.abnf_cert.specs.Accepted.{IsAccepted};

use abnf_cert::Cert;
use abnf_least::Shortest;
use abnf_names::{Grammar, RuleNo};
use ls_lists::List;
use std::alloc::{AllocError as Memory, Global};

pub fn least(alloc: Global, grammar: &Grammar<'_>) -> Result<Cert, Memory> {
    abnf_least::least(alloc, grammar)
}

pub fn example(
    alloc: Global,
    grammar: &Grammar<'_>,
    cert: &Cert,
    rule: RuleNo,
) -> Result<Shortest, Memory>
    requires accepted { IsAccepted grammar.now.rules cert.now }
    requires rule { rule < length grammar.now.rules }
{
    abnf_least::example(alloc, grammar, cert, rule)
}

pub fn shown(length: u64, text: List<u32>) -> Shortest {
    Shortest::Shown { length, text }
}

pub fn long(length: u64) -> Shortest {
    Shortest::Long(length)
}

pub fn huge() -> Shortest {
    Shortest::Huge
}

pub fn nothing() -> Shortest {
    Shortest::Nothing
}

pub fn not_known() -> Shortest {
    Shortest::NotKnown
}

pub fn shortest_kind(shortest: &Shortest) -> u8 {
    match shortest {
        Shortest::Shown { length: _, text: _ } => 0,
        Shortest::Long(_) => 1,
        Shortest::Huge => 2,
        Shortest::Nothing => 3,
        Shortest::NotKnown => 4,
    }
}

pub fn render(alloc: Global, characters: &[u32]) -> Result<String, Memory> {
    abnf_least::render(alloc, characters)
}
