//! The nodes of single tokens.

ghost use Rattle.std.specs.Prelude.{◌≡◌, ◌<◌, ℕ, IfOk, None, drop, fold};
ghost use Rattle.abnf_parts.specs.Leaf as leaf;
ghost use Rattle.abnf_parts.specs.Nodes.{IsNode};

use crate::node::Node;
use abnf_token::{Folded, Token, base_of, digit_value, number_of};
use ls_lists::List;
use std::alloc::{AllocError, Global};

/// The text before the first such character, and the text behind it; the whole text and none, where there is no such
/// character.
fn cut(text: &str, at: char) -> (&str, &str)
    requires { at < 128 }
    ensures before { result.0.now ≡ leaf.before at text.now }
    ensures behind { result.1.now ≡ leaf.behind at text.now }
{
    match text.split_once(at) {
        Some(parts) => parts,
        None => (text, ""),
    }
}

/// The node of a quoted text.
pub(crate) fn quoted_node<'t>(token: Token<'t>) -> Node<'t>
    ensures { (n : ℕ) → IsNode n (leaf.quoted_part token.entry.text.now) result }
{
    let (mark, rest) = cut(token.text, '"');
    let (text, _) = cut(rest, '"');
    Node::Quoted {
        text,
        exact: Folded(mark) == Folded("%s"),
    }
}

/// Whether the byte stands in the text.
fn has(text: &[u8], byte: u8) -> bool
    ensures { result ≡ leaf.has byte text.now }
{
    text.contains(&byte)
}

/// A number with one more digit.
fn with_digit(base: u32, number: u32, byte: u8) -> u32
    ensures { result ≡ leaf.with_digit base number byte }
{
    number
        .saturating_mul(base)
        .saturating_add(digit_value(byte))
}

/// The numbers between `.` or `-`.
fn numbers(alloc: Global, base: u32, digits: &[u8]) -> Result<List<u32>, AllocError>
    ensures { IfOk result (λ ns. ns ≡ leaf.numbers_from base 0 digits.now) }
{
    let mut numbers = List::new(alloc);
    let mut number = 0;
    for byte in digits {
        if *byte == b'.' || *byte == b'-' {
            numbers.push(number)?;
            number = 0;
        } else {
            number = with_digit(base, number, *byte);
        }
    }
    numbers.push(number)?;
    Ok(numbers)
}

/// One more number of a range, behind those that were read.
fn with_end(ends: (Option<u32>, Option<u32>), number: u32) -> (Option<u32>, Option<u32>)
    ensures { result ≡ leaf.with_end ends number }
{
    match ends {
        (None, high) => (Some(number), high),
        (Some(low), None) => (Some(low), Some(number)),
        (Some(low), Some(high)) => (Some(low), Some(high)),
    }
}

/// The first two of the numbers between `.` or `-`.
fn first_ends(base: u32, digits: &[u8]) -> (Option<u32>, Option<u32>)
    ensures { result ≡ fold leaf.with_end (None, None) (leaf.numbers_from base 0 digits.now) }
{
    let mut ends = (None, None);
    let mut number = 0;
    for byte in digits {
        if *byte == b'.' || *byte == b'-' {
            ends = with_end(ends, number);
            number = 0;
        } else {
            number = with_digit(base, number, *byte);
        }
    }
    with_end(ends, number)
}

/// Both ends, where both were read.
fn both_ends(ends: (Option<u32>, Option<u32>)) -> Option<(u32, u32)>
    ensures { result ≡ leaf.both_ends ends }
{
    match ends {
        (Some(low), Some(high)) => Some((low, high)),
        _ => None,
    }
}

/// The node of a range with these digits.
fn range_node<'t>(base: u32, digits: &[u8]) -> Node<'t>
    ensures { (n : ℕ) → IsNode n (leaf.span_of (leaf.numbers_from base 0 digits.now)) result }
{
    match both_ends(first_ends(base, digits)) {
        Some((low, high)) => Node::Span { low, high },
        None => Node::Opaque,
    }
}

/// The node of a number, a series or a range. A range takes no memory.
pub(crate) fn number_node<'t>(alloc: Global, token: Token<'t>) -> Result<Node<'t>, AllocError>
    ensures { IfOk result (λ node. (n : ℕ) → IsNode n (leaf.number_part token.entry.text.now) node) }
{
    let [_, letter, digits @ ..] = token.text.as_bytes() else {
        return Ok(Node::Opaque);
    };
    let base = base_of(*letter);
    if has(digits, b'-') {
        return Ok(range_node(base, digits));
    }
    Ok(Node::Series(numbers(alloc, base, digits)?))
}

/// The two ends of a range, if these are the digits of one.
#[tactic(auto, using(crate::proofs::Ends::ends_in, crate::proofs::Ends::no_ends))]
fn range_in(base: u32, digits: &[u8]) -> Option<(u32, u32)>
    ensures { result ≡ leaf.ends_of (leaf.number_tree base digits.now) }
{
    if has(digits, b'-') {
        both_ends(first_ends(base, digits))
    } else {
        None
    }
}

/// The two ends of a range of characters, as `%x30-39`; `None` for any other token. Time goes by its digits.
pub fn range_of<'t>(token: Token<'t>) -> Option<(u32, u32)>
    ensures { result ≡ leaf.ends_of (leaf.number_part token.entry.text.now) }
{
    let [_, letter, digits @ ..] = token.text.as_bytes() else {
        return None;
    };
    range_in(base_of(*letter), digits)
}

/// The least and the most of a repeat, which has no most where that is `None` (RFC 5234 sections 3.6 and 3.7). Without
/// `*` both are the number that it is. Time goes by its digits.
pub fn repeat_bounds<'t>(token: Token<'t>) -> (u32, Option<u32>)
    ensures { result ≡ leaf.repeat_limits token.entry.text.now }
{
    if has(token.text.as_bytes(), b'*') {
        let (least, most) = cut(token.text, '*');
        (number_of(least, 10).unwrap_or(0), number_of(most, 10))
    } else {
        let count = number_of(token.text, 10).unwrap_or(0);
        (count, Some(count))
    }
}
