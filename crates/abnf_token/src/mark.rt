//! Where the tokens of a line stand.

ghost use Rattle.std.specs.Prelude.{◌≡◌, ◌+◌, ◌<◌, ◌^◌, IfOk, OnOk, length, slice_range};
ghost use Rattle.abnf_token.specs.Marks.{AreMarks, AreMarksOnto, IsMarkOf, mark_of};

use crate::scan::tokens;
use crate::token::{Kind, Token};
use std::alloc::{AllocError, Global};

/// The class of a token, and where its text stands in its line, in bytes.
///
/// A line's marks can be kept with the line, which tokens, that borrow from it, can't be. [`token_at`] gives the token again.
#[derive(Clone, Copy, Debug, PartialEq, Eq)]
pub struct TokenMark {
    /// The class of the token.
    pub kind: Kind,
    /// How many bytes of the line stand before the text.
    pub start: u32,
    /// How many bytes of the line stand before the text's end.
    pub end: u32,
}

/// The mark of a token.
fn mark_of(token: &Token) -> TokenMark
    requires { token.now.start + length token.now.text.now < 2 ^ 32 }
    ensures { result ≡ mark_of token.now }
{
    TokenMark {
        kind: token.kind,
        start: token.start as u32,
        end: (token.start + token.text.len()) as u32,
    }
}

/// Adds the marks of the tokens of a line, from left to right, behind those that are there. The line has less than 4 GiB.
/// Time goes by the bytes of the line.
///
/// # Errors
///
/// Where an allocation is refused. Some of the marks may have been added then.
pub fn push_marks(marks: &mut Vec<TokenMark>, text: &str) -> Result<(), AllocError>
    requires { length text.now < 2 ^ 32 }
    ensures { OnOk result (AreMarksOnto text.now marks.old.items marks.new.items) }
{
    for token in tokens(text, 0) {
        marks.push(mark_of(&token))?;
    }
    Ok(())
}

/// The marks of the tokens of a line, from left to right. The line has less than 4 GiB. Time goes by the bytes of the
/// line.
///
/// # Errors
///
/// Where an allocation is refused.
pub fn marks_of(alloc: Global, text: &str) -> Result<Vec<TokenMark>, AllocError>
    requires { length text.now < 2 ^ 32 }
    ensures { IfOk result (λ marks. AreMarks text.now marks.items) }
{
    let mut marks = Vec::new(alloc);
    push_marks(&mut marks, text)?;
    Ok(marks)
}

/// The token of a line that has this mark, which is one of that line's. It carries the line's number.
pub fn token_at<'t>(text: &'t str, line: usize, mark: &TokenMark) -> Token<'t>
    requires { IsMarkOf text.now mark.now }
    ensures mark { mark_of result ≡ mark.now }
    ensures line { result.line ≡ line }
    ensures text { result.text.now ≡ slice_range text.now mark.now.start mark.now.end }
{
    let start = mark.start as usize;
    let end = mark.end as usize;
    Token {
        kind: mark.kind,
        text: &text[start..end],
        line,
        start,
    }
}
