//! Calls that stand alone. Each is made once more where memory is refused; what it was given must be as before then.

use ls_frame::{FrameFault, Framer};
use ls_lists::{List, Text};
use ls_text::{Edit, Encoding, Position, Range, Snapshot, TextFault};
use std::alloc::{AllocError, Global};
use std::io;

/// Two frames, in pieces.
const PIECES: [&[u8]; 4] = [
    b"Content-Length: 2\r\n\r\n{}Content-Length: 0",
    b"2\r\n\r\n",
    b"[",
    b"]",
];

// Whether the contents of frames that are whole by now are the first so many of the two.
fn are_contents(out: &[Vec<u8>], count: usize) -> bool {
    match out {
        [] => count == 0,
        [first] => count == 1 && first.as_slice() == b"{}".as_slice(),
        [first, second] => count == 2
            && first.as_slice() == b"{}".as_slice()
            && second.as_slice() == b"[]".as_slice(),
        _ => false,
    }
}

// How many frames a piece makes whole. None where memory is refused twice, or what it was given isn't as before.
fn fed(framer: &mut Framer, out: &mut Vec<Vec<u8>>, piece: &[u8]) -> Option<usize> {
    let (end, count) = (framer.end(), out.len());
    match framer.feed(piece, out) {
        Err(FrameFault::Memory) => {}
        answer => return answer.ok(),
    }
    if framer.end() != end || !are_contents(out.as_slice(), count) {
        return None;
    }
    framer.feed(piece, out).ok()
}

// Feeds the pieces, and prints how many frames each makes whole. How many there are.
fn feed(rt: &HostRuntime, framer: &mut Framer, out: &mut Vec<Vec<u8>>) -> io::Result<usize> {
    let mut count = 0_usize;
    for piece in PIECES {
        let more = fed(framer, out, piece);
        println!(rt; "feed: {more:?}")?;
        count = count.saturating_add(more.unwrap_or(0));
    }
    Ok(count)
}

fn frames(rt: &HostRuntime) -> io::Result<()> {
    let mut framer = Framer::new(rt.alloc());
    let mut out = Vec::new(rt.alloc());
    let count = feed(rt, &mut framer, &mut out)?;
    let whole = are_contents(out.as_slice(), count) && framer.end() == Ok(());
    println!(rt; "contents: {count}, {whole}")
}

/// A text with a character of two UTF-16 units.
const TEXT: &str = ";\u{1F600}z";

/// The snapshot of a text.
pub fn of(alloc: Global, text: &str) -> Result<Snapshot, TextFault> {
    Snapshot::of_text(alloc, String::from_str(alloc, text)?)
}

// The same, made once more where memory is refused.
fn opened(alloc: Global, text: &str) -> Result<Snapshot, TextFault> {
    match of(alloc, text) {
        Err(TextFault::Memory) => of(alloc, text),
        made => made,
    }
}

// Puts a text in the place of a line's characters from one on up to another.
fn edit(alloc: Global, line: u32, from: u32, to: u32, text: &str) -> Result<Edit, TextFault> {
    let start = Position {
        line,
        character: from,
    };
    let end = Position {
        line,
        character: to,
    };
    let range = Some(Range { start, end });
    let text = Text::from_str(alloc, text)?;
    Ok(Edit { range, text })
}

// Inserts `a` inside of the character, which is before it, and then `b` behind it.
fn edited(alloc: Global, text: &Snapshot) -> Result<Snapshot, TextFault> {
    let mut edits = List::new(alloc);
    edits.push(edit(alloc, 0, 2, 2, "a")?)?;
    edits.push(edit(alloc, 0, 4, 4, "b")?)?;
    text.apply(edits.as_slice(), Encoding::Utf16)
}

fn has_line(text: &Snapshot, line: &str) -> bool {
    text.line_count() == 1 && text.line(0) == Some(line)
}

// Whether an edited text is what it must be. None where memory is refused twice, or the text isn't as before.
fn is_edited(alloc: Global, text: &Snapshot) -> Option<bool> {
    let made = match edited(alloc, text) {
        Err(TextFault::Memory) if has_line(text, TEXT) => edited(alloc, text),
        made => made,
    };
    Some(has_line(&made.ok()?, ";a\u{1F600}bz") && has_line(text, TEXT))
}

fn texts(rt: &HostRuntime) -> io::Result<()> {
    let alloc = rt.alloc();
    let text = opened(alloc, TEXT);
    let is_right = match &text {
        Ok(text) => is_edited(alloc, text),
        Err(_) => None,
    };
    drop(text);
    println!(rt; "apply: {is_right:?}")
}

// Whether a text is this one, in so many lines. None where memory is refused twice.
fn is_text(text: &Snapshot, wanted: &str, lines: usize) -> Option<bool> {
    let whole = match text.to_text() {
        Err(AllocError) if text.line_count() == lines => text.to_text(),
        whole => whole,
    };
    Some(whole.ok()?.as_str() == wanted && text.line_count() == lines)
}

// Puts a text in the place of the first so many characters of line 1.
fn replaced(alloc: Global, text: &Snapshot, end: u32, new: &str) -> Result<Snapshot, TextFault> {
    let mut edits = List::new(alloc);
    edits.push(edit(alloc, 1, 0, end, new)?)?;
    text.apply(edits.as_slice(), Encoding::Utf16)
}

// Whether that edit of this text, which has so many lines, leaves a CR and an LF that are one line end. None where memory is refused twice, or
// the text isn't as before.
fn is_joined(
    alloc: Global,
    text: &Snapshot,
    before: &str,
    lines: usize,
    end: u32,
    new: &str,
) -> Option<bool> {
    let made = match replaced(alloc, text, end, new) {
        Err(TextFault::Memory) if is_text(text, before, lines) == Some(true) => {
            replaced(alloc, text, end, new)
        }
        made => made,
    };
    Some(is_text(&made.ok()?, "a\r\n", 2)? && is_text(text, before, lines)?)
}

fn seam(rt: &HostRuntime, before: &str, lines: usize, end: u32, new: &str) -> io::Result<()> {
    let alloc = rt.alloc();
    let text = opened(alloc, before);
    let is_right = match &text {
        Ok(text) => is_joined(alloc, text, before, lines, end, new),
        Err(_) => None,
    };
    drop(text);
    println!(rt; "to_text: {is_right:?}")
}

// LF is put behind a CR, and what stands between the two is deleted.
fn seams(rt: &HostRuntime) -> io::Result<()> {
    seam(rt, "a\r", 2, 0, "\n")?;
    seam(rt, "a\rb\n", 3, 1, "")
}

/// Makes the calls, and prints what they answer.
pub fn made(rt: &HostRuntime) -> io::Result<()> {
    frames(rt)?;
    texts(rt)?;
    seams(rt)
}
