//! Repeats and ranges for which nothing stands.

ghost use Rattle.std.specs.Prelude.{◌≡◌, false};
ghost use Rattle.abnf_lint.specs.Empty as spec;

use abnf_parts::{range_of, repeat_bounds};
use abnf_token::{Kind, Token};

/// Whether the minimum of a repeat is above its maximum: how often it stands at least, and at most.
pub fn is_above(least: u32, most: Option<u32>) -> bool
    ensures { result ≡ spec.is_above least most }
{
    match most {
        Some(most) => most < least,
        None => false,
    }
}

/// Whether the low end of a range of characters is above its high end.
pub fn is_turned(ends: Option<(u32, u32)>) -> bool
    ensures { result ≡ spec.is_turned ends }
{
    match ends {
        Some((low, high)) => high < low,
        None => false,
    }
}

/// Whether a token is a repeat with its minimum above its maximum, or a range turned round.
pub fn is_empty_number(token: Token<'_>) -> bool
    ensures { result ≡ spec.is_empty_number token.entry.kind token.entry.text.now }
{
    match token.kind {
        Kind::Repeat => {
            let (least, most) = repeat_bounds(token);
            is_above(least, most)
        }
        Kind::Number => is_turned(range_of(token)),
        _ => false,
    }
}
