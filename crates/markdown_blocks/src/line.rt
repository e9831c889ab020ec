//! The parts of a line.

ghost use Rattle.std.specs.Prelude.{◌≡◌, ◌≤◌, length, not};
ghost use Rattle.std.specs.List.{list_all, prefix_len, take_while};
ghost use Rattle.origins.specs.Origins.{is_blank_char, is_break};
ghost use Rattle.markdown_blocks.specs.Fences.{is_margin, margin, marks, without_blanks, without_end};

use origins::{is_blank, is_break};

// Whether all characters are blanks.
pub fn are_blank(text: &[char]) -> bool
    ensures { result ≡ list_all is_blank_char text.now }
{
    text.iter().all(|c| is_blank(*c))
}

// Whether a character is of the margin of a line: a blank, and in a quote a `>` too.
pub fn is_margin(quoted: bool, c: char) -> bool
    ensures { result ≡ is_margin quoted c }
{
    is_blank(c) || (quoted && c == '>')
}

// How many such characters a line begins with.
pub fn margin(quoted: bool, line: &[char]) -> usize
    ensures count { result ≡ margin quoted line.now }
    ensures within { result ≤ length line.now }
{
    line.iter().take_while(|c| is_margin(quoted, **c)).count()
}

// A line without its indentation.
pub fn without_blanks(line: &[char]) -> &[char]
    ensures { result.now ≡ without_blanks line.now }
{
    &line[margin(false, line)..]
}

// How many of these characters a line begins with.
pub fn marks(mark: char, line: &[char]) -> usize
    ensures count { result ≡ marks mark line.now }
    ensures within { result ≤ length line.now }
{
    line.iter().take_while(|c| **c == mark).count()
}

// How many characters the first word of a text has, at whose front no blanks stand.
fn word_len(text: &[char]) -> usize
    ensures count { result ≡ prefix_len (λ c. not (is_blank_char c)) text.now }
    ensures within { result ≤ length text.now }
{
    text.iter().take_while(|c| !is_blank(**c)).count()
}

// How many characters a line has before its line end.
fn text_len(line: &[char]) -> usize
    ensures count { result ≡ prefix_len (λ c. not (is_break c)) line.now }
    ensures within { result ≤ length line.now }
{
    line.iter().take_while(|c| !is_break(**c)).count()
}

// The first word of a text, at whose front no blanks stand.
pub fn first_word(text: &[char]) -> &[char]
    ensures { result.now ≡ take_while (λ c. not (is_blank_char c)) text.now }
{
    &text[..word_len(text)]
}

// A line without its line end.
pub fn without_end(line: &[char]) -> &[char]
    ensures { result.now ≡ without_end line.now }
{
    &line[..text_len(line)]
}
