//! What a line of a published text is.

ghost use Rattle.std.specs.Prelude.{◌≡◌, ◌≤◌, length};
ghost use Rattle.std.specs.List.{list_all, prefix_len};
ghost use Rattle.std.specs.Char.{is_ascii_digit};
ghost use Rattle.abnf_token.specs.Classes.{is_blank_byte, is_name_byte};
ghost use Rattle.abnf_syntax.specs.Blocks.{indent, is_content};
ghost use Rattle.published_blocks.specs.Lines as spec;

// What a line is.
#[derive(Clone, Copy)]
pub enum Kind {
    // It has only blanks.
    Blank,
    // It is of a page break: a footer, a form feed, or a header.
    Break,
    // It has text.
    Words,
}

// Whether a byte is SP or HTAB.
fn is_blank(byte: u8) -> bool
    ensures { result ≡ is_blank_byte byte }
{
    byte == b' ' || byte == b'\t'
}

// Whether all bytes are blanks.
fn are_blank(bytes: &[u8]) -> bool
    ensures { result ≡ list_all is_blank_byte bytes.now }
{
    bytes.iter().all(|byte| is_blank(*byte))
}

// How many blanks a line begins with.
pub fn indent(line: &[u8]) -> usize
    ensures count { result ≡ indent line.now }
    ensures within { result ≤ length line.now }
{
    for (at, byte) in line.iter().enumerate() {
        if !is_blank(*byte) {
            return at;
        }
    }
    line.len()
}

// A line without the blanks at its front.
fn without_indent(line: &[u8]) -> &[u8]
    ensures { result.now ≡ spec.without_indent line.now }
{
    &line[indent(line)..]
}

// A byte of a line, 0 behind its end.
fn byte_at(line: &[u8], at: usize) -> u8
    ensures { result ≡ spec.byte_at line.now at }
{
    match line.get(at) {
        Some(byte) => *byte,
        None => 0,
    }
}

// Whether a byte is one of a name.
fn is_of_name(byte: u8) -> bool
    ensures { result ≡ is_name_byte byte }
{
    byte.is_ascii_alphabetic() || byte.is_ascii_digit() || byte == b'-'
}

// How many bytes of a name stand at the front.
fn name_len(bytes: &[u8]) -> usize
    ensures count { result ≡ prefix_len is_name_byte bytes.now }
    ensures within { result ≤ length bytes.now }
{
    bytes.iter().take_while(|byte| is_of_name(**byte)).count()
}

// How many digits stand at the front.
fn digits_len(bytes: &[u8]) -> usize
    ensures count { result ≡ prefix_len is_ascii_digit bytes.now }
    ensures within { result ≤ length bytes.now }
{
    bytes
        .iter()
        .take_while(|byte| byte.is_ascii_digit())
        .count()
}

// Whether a line has content: more than blanks and a comment.
pub fn is_content(line: &[u8]) -> bool
    ensures { result ≡ is_content line.now }
{
    for byte in line {
        if !is_blank(*byte) {
            return *byte != b';';
        }
    }
    false
}

// Whether a line begins as a rule does.
pub fn is_head(line: &[u8]) -> bool
    ensures { result ≡ spec.is_head line.now }
{
    let name = without_indent(line);
    let behind = without_indent(&name[name_len(name)..]);
    byte_at(name, 0).is_ascii_alphabetic() && byte_at(behind, 0) == b'='
}

// Whether digits stand here, `]`, and blanks alone behind it.
fn ends_page_number(bytes: &[u8]) -> bool
    ensures { result ≡ spec.ends_page_number bytes.now }
{
    let count = digits_len(bytes);
    let behind = &bytes[count..];
    match behind {
        [b']', rest @ ..] => count >= 1 && are_blank(rest),
        _ => false,
    }
}

// Whether `[Page N]` stands here, and blanks alone behind it.
fn is_page_mark(bytes: &[u8]) -> bool
    ensures { result ≡ spec.is_page_mark bytes.now }
{
    match bytes {
        [b'[', b'P', b'a', b'g', b'e', b' ', number @ ..] => ends_page_number(number),
        _ => false,
    }
}

// Whether a line is the footer of a page.
fn is_footer(line: &[u8]) -> bool
    ensures { result ≡ spec.is_footer line.now }
{
    for at in 0..line.len() {
        if is_page_mark(&line[at..]) {
            return true;
        }
    }
    false
}

// Whether a line begins with a form feed.
fn is_feed(line: &[u8]) -> bool
    ensures { result ≡ spec.is_feed line.now }
{
    byte_at(line, 0) == 12
}

// Whether a line is a form feed and no more, behind which a header follows.
pub fn is_feed_alone(line: &[u8]) -> bool
    ensures { result ≡ spec.is_feed_alone line.now }
{
    match line {
        [12, rest @ ..] => are_blank(rest),
        _ => false,
    }
}

// What a line is, which may stand right behind a form feed.
pub fn kind_of(behind_feed: bool, line: &[u8]) -> Kind
    ensures { result ≡ spec.line_kind behind_feed line.now }
{
    if is_feed(line) || is_footer(line) || (behind_feed && !is_blank(byte_at(line, 0))) {
        Kind::Break
    } else if are_blank(line) {
        Kind::Blank
    } else {
        Kind::Words
    }
}
