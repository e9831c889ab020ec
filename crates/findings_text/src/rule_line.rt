//! The line of a rule.

ghost use Rattle.std.specs.Prelude.{◌≡◌, ◌++◌, IfOk, OnOk, codes, string_bytes};
ghost use Rattle.std.specs.Fmt.{decimal};
ghost use Rattle.abnf_names.specs.Places.{named_at};
ghost use Rattle.findings_text.specs.Rules.{known_text, rule_line_at};

use crate::line::place_text;
use abnf_least::{Shortest, render};
use abnf_names::Spot;
use ls_text::Position;
use std::alloc::{AllocError as Memory, Global};

/// What is said of an example that is shown.
fn with_example(alloc: Global, length: u64, example: &str) -> Result<String, Memory>
    ensures { IfOk result (λ text. string_bytes text ≡ codes "shortest length " ++ decimal length ++ codes ": " ++ example.now) }
{
    let mut text = format!(in alloc; "shortest length {length}: ")?;
    text.push_str(example)?;
    Ok(text)
}

/// What is known of the shortest strings of a rule, as a text.
fn known_text(alloc: Global, shown: &Shortest) -> Result<String, Memory>
    ensures { IfOk result (λ text. string_bytes text ≡ known_text shown.now) }
{
    match shown {
        Shortest::Shown { length, text } => {
            let example = render(alloc, text.as_slice())?;
            with_example(alloc, *length, example.as_str())
        }
        Shortest::Long(length) => format!(in alloc; "shortest length {length}, example not shown"),
        Shortest::Huge => {
            String::from_str(alloc, "shortest length 18446744073709551615 or more")
        }
        Shortest::Nothing => String::from_str(alloc, "generates nothing"),
        Shortest::NotKnown => String::from_str(alloc, "not known"),
    }
}

/// Appends the line of a rule of which this is shown, with the position at which it is defined.
pub(crate) fn push_rule_line(
    lines: &mut String,
    alloc: Global,
    file: &str,
    at: Position,
    head: &Spot<'_>,
    shown: &Shortest,
) -> Result<(), Memory>
    ensures { OnOk result (string_bytes lines.new ≡ string_bytes lines.old ++ rule_line_at file.now at (named_at head.now) shown.now) }
{
    let place = place_text(alloc, at)?;
    let known = known_text(alloc, shown)?;
    lines.push_str(file)?;
    lines.push_str(place.as_str())?;
    lines.push_str(head.name.0)?;
    lines.push_str(": ")?;
    lines.push_str(known.as_str())?;
    lines.push_str("\n")?;
    Ok(())
}
