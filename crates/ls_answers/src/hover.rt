//! What is shown of a rule.

ghost use Rattle.std.specs.Prelude.{◌<◌, ◌≡◌, ◌∷◌, ◌++◌, [], IfOk, IfSome, codes, length, string_bytes};
ghost use Rattle.std.specs.Fmt.{decimal};
ghost use Rattle.abnf_cert.specs.Accepted.{IsAccepted};
ghost use Rattle.abnf_least.specs.Shown.{IsShown};
ghost use Rattle.ls_answers.specs.Hover.{IsHoverText, shown_text};

use abnf_cert::Cert;
use abnf_least::{Shortest, example, render};
use abnf_names::Grammar;
use abnf_parts::RuleNo;
use std::alloc::{AllocError as Memory, Global};

/// The line of a length.
fn length_line(alloc: Global, length: u64) -> Result<String, Memory>
    ensures { IfOk result (λ text. string_bytes text ≡ codes "shortest length " ++ decimal length ++ 10 ∷ []) }
{
    format!(in alloc; "shortest length {length}\n")
}

/// The line of a length, and below it what is said of an example.
fn with_length(alloc: Global, length: u64, said: &str) -> Result<String, Memory>
    ensures { IfOk result (λ text. string_bytes text
        ≡ codes "shortest length " ++ decimal length ++ 10 ∷ [] ++ codes "example " ++ said.now) }
{
    let mut text = length_line(alloc, length)?;
    text.push_str("example ")?;
    text.push_str(said)?;
    Ok(text)
}

/// What is known of the shortest strings of a rule, as a text.
fn shown_text(alloc: Global, shown: &Shortest) -> Result<String, Memory>
    ensures { IfOk result (λ text. string_bytes text ≡ shown_text shown.now) }
{
    match shown {
        Shortest::Shown { length, text } => {
            let example = render(alloc, text.as_slice())?;
            with_length(alloc, *length, example.as_str())
        }
        Shortest::Long(length) => with_length(alloc, *length, "not shown"),
        Shortest::Huge => {
            String::from_str(alloc, "shortest length 18446744073709551615 or more")
        }
        Shortest::Nothing => String::from_str(alloc, "generates nothing"),
        Shortest::NotKnown => String::from_str(alloc, "not known"),
    }
}

/// What is known of the shortest strings of a rule, and the same as a text.
pub(crate) fn shown_of(
    alloc: Global,
    grammar: &Grammar,
    cert: &Cert,
    rule: RuleNo,
) -> Result<(Shortest, String), Memory>
    requires accepted { IsAccepted grammar.now.rules cert.now }
    requires rule { rule < length grammar.now.rules }
    ensures shown { IfOk result (λ r. IsShown grammar.now.rules rule r.0) }
    ensures text { IfOk result (λ r. string_bytes r.1 ≡ shown_text r.0) }
{
    let shown = example(alloc, grammar, cert, rule)?;
    let text = shown_text(alloc, &shown)?;
    Ok((shown, text))
}

/// The text that is shown of a rule, by an accepted certificate; `undefined` where a name stands for no rule. The rule must be one
/// of the grammar.
///
/// - `shortest length L` and, in a second line, `example E`, with a shortest string of the rule, where L is at most 4,096 characters;
/// - `shortest length L` and `example not shown`, where L is below 18446744073709551615;
/// - `shortest length 18446744073709551615 or more` where no string is shorter than that, and there is one;
/// - `generates nothing` where there is none;
/// - `not known` where the rule leads to prose or to a faulty block.
///
/// # Errors
///
/// Where an allocation is refused.
pub fn hover_text(
    alloc: Global,
    grammar: &Grammar,
    cert: &Cert,
    rule: Option<RuleNo>,
) -> Result<String, Memory>
    requires accepted { IsAccepted grammar.now.rules cert.now }
    requires rule { IfSome rule (λ r. r < length grammar.now.rules) }
    ensures { IfOk result (λ text. IsHoverText grammar.now.rules rule (string_bytes text)) }
{
    match rule {
        Some(rule) => Ok(shown_of(alloc, grammar, cert, rule)?.1),
        None => String::from_str(alloc, "undefined"),
    }
}
