//! Blanks, line ends, and the indent of a block of grammar.

ghost use Rattle.std.specs.Prelude.{◌≡◌, Some};
ghost use Rattle.std.specs.Str.{chars};
ghost use Rattle.origins.specs.Origins.{first_indent, is_blank_char, is_break};

/// Whether a character is SP or HTAB.
pub fn is_blank(c: char) -> bool
    ensures { result ≡ is_blank_char c }
{
    c == ' ' || c == '\t'
}

/// Whether a character is LF or CR.
pub fn is_break(c: char) -> bool
    ensures { result ≡ is_break c }
{
    c == '\n' || c == '\r'
}

// How many blanks the first line with content begins with.
pub fn first_indent(text: &str) -> usize
    ensures { result ≡ first_indent (Some 0) (chars text.now) }
{
    // The blanks of the line so far, or `None` behind the `;` of a comment.
    let mut front = Some(0usize);
    for c in text.chars() {
        if is_break(c) {
            front = Some(0);
        } else if let Some(blanks) = front {
            if is_blank(c) {
                front = Some(blanks + 1);
            } else if c == ';' {
                front = None;
            } else {
                return blanks;
            }
        }
    }
    0
}
