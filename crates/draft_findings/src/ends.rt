//! The lines at which the blocks of a draft end.

ghost use Rattle.std.specs.Prelude.{◌≡◌, ◌<◌, ◌^◌, ◌∷◌, ◌+◌, ◌≤◌, ℕ, false, List as Listed, IfOk, drop, length};
ghost use Rattle.std.specs.Option.{option_map_or};
ghost use Rattle.std.specs.Str.{chars};
ghost use Rattle.ls_text.specs.Lines.{ends_line, starts_with_lf};
ghost use Rattle.origins.specs.Origins.{Sourced, characters};
ghost use Rattle.draft_findings.specs.Ends as spec;

use crate::walk::{Walk, first, front};
use ls_lists::List;
use ls_text::Snapshot;
use origins::{Gathered, is_break};
use std::alloc::{AllocError as Memory, Global};

/// Whether a line end stands for what a draft has at its origin, if it has one.
fn is_of_draft(draft: &mut Walk<'_>, origin: Option<usize>) -> bool
    ensures same { draft.new ≡ draft.old }
    ensures value { result ≡ option_map_or (spec.is_of_draft draft.old) origin false }
{
    let Some(origin) = origin else {
        return false;
    };
    match draft.char_at(origin) {
        Some(c) => is_break(c) || c == '&',
        None => false,
    }
}

/// Whether a character of the grammar, at this place in it, ends a block, before this text.
fn ends_block(draft: &mut Walk<'_>, grammar: &Gathered, at: usize, c: char, behind: &str) -> bool
    ensures same { draft.new ≡ draft.old }
    ensures value { (origin : ℕ) (cs : Listed Sourced) → drop at grammar.now ≡ (c, origin) ∷ cs → chars behind.now ≡ characters cs
        → result ≡ spec.ends_block draft.old (c, origin) cs }
{
    if c != '\n' {
        return false;
    }
    let Some(_next) = first(behind) else {
        return true;
    };
    !is_of_draft(draft, grammar.origin_of(at))
}

/// Whether a text begins with LF.
fn starts_with_lf(text: &str) -> bool
    ensures { result ≡ starts_with_lf (chars text.now) }
{
    match front(text) {
        Some(c) => c == '\n',
        None => false,
    }
}

/// Whether a character ends a line, before this text.
fn ends_line(c: char, behind: &str) -> bool
    ensures { result ≡ ends_line c (chars behind.now) }
{
    c == '\n' || (c == '\r' && !starts_with_lf(behind))
}

/// The line behind a character in this line, before this text.
fn line_behind(line: usize, c: char, behind: &str) -> usize
    requires { line + 1 < 2 ^ 64 }
    ensures { result ≡ spec.line_behind line c (chars behind.now) }
{
    if ends_line(c, behind) { line + 1 } else { line }
}

/// A number that the characters of a text don't exceed, so that they can be counted: that of its bytes.
fn char_bound(text: &str) -> usize
    ensures { length (chars text.now) ≤ result }
{
    text.len()
}

/// The lines of a grammar's text at which the blocks of its draft end: of each block the first line behind it, counted from
/// 0, in order.
///
/// It takes one pass over what is gathered, and one over the draft, which is copied for it.
/// [`reported_in_draft`](crate::reported_in_draft) calls it only where there are more than ten faults of syntax.
///
/// # Errors
///
/// Where an allocation is refused.
pub fn block_ends(
    alloc: Global,
    draft: &Snapshot,
    grammar: &Gathered,
) -> Result<List<usize>, Memory>
    ensures { IfOk result (λ ends. ends ≡ spec.block_ends draft.now grammar.now) }
{
    let whole = draft.to_text()?;
    let mut walk = Walk::of(whole.as_str());
    let mut ends = List::new(alloc);
    let mut rest = grammar.as_str();
    let _bound = char_bound(rest);
    let mut at = 0usize;
    let mut line = 0usize;
    'characters: loop {
        let Some((c, behind)) = first(rest) else {
            return Ok(ends);
        };
        line = line_behind(line, c, behind);
        if ends_block(&mut walk, grammar, at, c, behind) {
            ends.push(line)?;
        }
        at += 1;
        rest = behind;
    }
}
