//! The pieces of a draft.

ghost use Rattle.std.specs.Prelude.{◌≡◌, ℕ, ◌≤◌, ◌<◌, ◌^◌, ◌+◌, true, false, IfSome, length, take, drop, slice_index};
ghost use Rattle.std.specs.List.{prefix_len};
ghost use Rattle.std.specs.Str.{chars};
ghost use Rattle.xml_blocks.specs.own.Reading.{IsPieceOf};
ghost use Rattle.xml_blocks.specs.Xml as spec;

use crate::fault::XmlFault;
use crate::reference::reference;
use crate::tag::tag_len;
use crate::text::{begins, behind, char_count, halves, until};
use memchr::{memchr, memchr2};

// What a piece of a draft is.
#[derive(Clone, Copy)]
pub enum Kind {
    // Characters that begin no markup, the first of which is this.
    Text(char),
    Comment,
    Section,
    Tag,
    // A reference to this character.
    Reference(char),
}

// A piece of a draft, and how many characters it has behind its first one.
#[derive(Clone, Copy)]
pub struct Piece {
    pub kind: Kind,
    pub more: usize,
}

// A piece with so many characters more, and these, or else a fault.
fn piece_of(
    kind: Kind,
    fault: XmlFault,
    more: Option<usize>,
    front: usize,
) -> Result<Piece, XmlFault>
    requires more { IfSome more (λ n. n < 2 ^ 63 + 1) }
    requires front { front < 12 }
    ensures { result ≡ spec.piece_of kind fault more front }
{
    match more {
        Some(more) => Ok(Piece {
            kind,
            more: more + front,
        }),
        None => Err(fault),
    }
}

// What `<` begins, of which this text stands behind it.
fn markup(text: &str, at: usize) -> Result<Piece, XmlFault>
    requires { length (chars text.now) < 2 ^ 63 }
    ensures { result ≡ spec.markup at (chars text.now) }
{
    if begins(text, &['!', '-', '-']) {
        let len = until(behind(text, 3), b"-->");
        piece_of(Kind::Comment, XmlFault::CommentWithoutEnd(at), len, 6)
    } else if begins(text, &['!', '[', 'C', 'D', 'A', 'T', 'A', '[']) {
        let len = until(behind(text, 8), b"]]>");
        piece_of(Kind::Section, XmlFault::SectionWithoutEnd(at), len, 11)
    } else {
        piece_of(Kind::Tag, XmlFault::TagWithoutEnd(at), tag_len(text), 0)
    }
}

// How many bytes come before the first `<`, which begins markup, or in a block the first `&`, which begins a reference.
fn plain_bytes(in_block: bool, bytes: &[u8]) -> usize
    ensures in_range { result ≤ length bytes.now }
    ensures before { (k : ℕ) → k < result → spec.is_plain_char in_block (slice_index bytes.now k) ≡ true }
    ensures found { result < length bytes.now → spec.is_plain_char in_block (slice_index bytes.now result) ≡ false }
{
    let found = if in_block {
        memchr2(b'<', b'&', bytes)
    } else {
        memchr(b'<', bytes)
    };
    match found {
        Some(at) => at,
        None => bytes.len(),
    }
}

// How many characters that begin no markup, and in a block no reference, a text begins with.
fn text_len(in_block: bool, text: &str) -> usize
    ensures { result ≡ prefix_len (spec.is_plain_char in_block) (chars text.now) }
{
    let (front, _) = text.split_at(plain_bytes(in_block, text.as_bytes()));
    char_count(front)
}

// The piece that stands at an offset, by its first character and the text behind it.
pub fn piece_at(in_block: bool, at: usize, c: char, text: &str) -> Result<Piece, XmlFault>
    requires { length (chars text.now) < 2 ^ 63 }
    ensures { result ≡ spec.piece_at in_block at c (chars text.now) }
{
    if c == '<' {
        return markup(text, at);
    }
    if in_block && c == '&' {
        return match reference(text) {
            Some((character, more)) => Ok(Piece {
                kind: Kind::Reference(character),
                more,
            }),
            None => Err(XmlFault::BadReference(at)),
        };
    }
    Ok(Piece {
        kind: Kind::Text(c),
        more: text_len(in_block, text),
    })
}

// What a piece has behind its first character, and what comes behind it. Text ends at a byte that is searched.
pub fn cut(in_block: bool, piece: Piece, text: &str) -> (&str, &str)
    requires { IsPieceOf in_block piece (chars text.now) }
    ensures front { chars result.0.now ≡ take piece.more (chars text.now) }
    ensures back { chars result.1.now ≡ drop piece.more (chars text.now) }
{
    match piece.kind {
        Kind::Text(_) => text.split_at(plain_bytes(in_block, text.as_bytes())),
        _ => halves(text, piece.more),
    }
}
