//! What can't be read of the blocks of a draft, and what elements without a type have.

ghost use Rattle.std.specs.Prelude.{◌≡◌, ◌<◌, ◌^◌, ◌++◌, None, Some, IfErr, IfOk, OnOk, length};
ghost use Rattle.std.specs.List.{list_all};
ghost use Rattle.std.specs.Str.{chars};
ghost use Rattle.xml_blocks.specs.Unread as spec;
ghost use Rattle.xml_blocks.specs.Xml.{block_element, is_space};

use crate::fault::XmlFault;
use crate::gather::{NO_OFFSET, Open, ends, put_piece, section_text};
use crate::piece::{Kind, cut, piece_at};
use crate::reference::reference;
use crate::tag::{Element, block_element, is_empty_element};
use crate::text::{begins, char_at, char_count, first, is_space};
use crate::untyped::{has_src, starts_element, untyped_element};
use origins::{Aside, Gathered, Lack, Unread};
use std::alloc::{AllocError, Global};

// A block that is open.
#[derive(Clone, Copy)]
pub struct Begun {
    // The element whose content it is.
    pub element: Element,
    // The offset at which the element's start tag begins.
    pub begin: usize,
    // Whether its text isn't in another file, and so far only white space, comments and tags stand in it.
    pub is_bare: bool,
}

// An element that is open.
#[derive(Clone, Copy)]
pub enum Held {
    // A block of ABNF.
    Marked(Begun),
    // An element without a type.
    Unmarked(Open),
}

// Whether a piece is an element for which a file stands.
fn is_include(kind: Kind, text: &str) -> bool
    ensures { result ≡ spec.is_include kind (chars text.now) }
{
    match kind {
        Kind::Tag => {
            begins(text, &['x', 'i', ':', 'i', 'n', 'c', 'l', 'u', 'd', 'e'])
                && is_space(char_at(text, 10))
        }
        _ => false,
    }
}

// Whether a text is white space.
fn is_white(text: &str) -> bool
    ensures { result ≡ list_all is_space (chars text.now) }
{
    text.chars().all(|c| is_space(c))
}

// Whether what stands in a block by a piece is white space, if anything.
fn is_bare(kind: Kind, text: &str) -> bool
    ensures { result ≡ spec.is_bare kind (chars text.now) }
{
    match kind {
        Kind::Text(c) => is_space(c) && is_white(text),
        Kind::Section => is_white(section_text(text)),
        Kind::Reference(c) => is_space(c),
        Kind::Comment | Kind::Tag => true,
    }
}

// An empty block that begins at an offset, if this says so.
fn if_empty(says: bool, at: usize) -> Option<Unread>
    ensures { result ≡ spec.if_empty says at }
{
    if says {
        Some(Unread {
            at,
            lack: Lack::Empty,
        })
    } else {
        None
    }
}

// What has its text in another file at an offset, if this says so.
fn if_elsewhere(says: bool, at: usize) -> Option<Unread>
    ensures { result ≡ spec.if_elsewhere says at }
{
    if says {
        Some(Unread {
            at,
            lack: Lack::Elsewhere,
        })
    } else {
        None
    }
}

// The block that is open behind a tag that stands for a block.
fn begun_by(element: Element, at: usize, tag: &str) -> Option<Held>
    ensures { result ≡ spec.begun_by element at (chars tag.now) }
{
    if is_empty_element(tag) {
        return None;
    }
    Some(Held::Marked(Begun {
        element,
        begin: at,
        is_bare: !has_src(tag),
    }))
}

// What can't be read of the block of a tag.
fn lacks_of(at: usize, tag: &str) -> Option<Unread>
    ensures { result ≡ spec.lacks_of at (chars tag.now) }
{
    if has_src(tag) {
        Some(Unread {
            at,
            lack: Lack::Elsewhere,
        })
    } else {
        if_empty(is_empty_element(tag), at)
    }
}

// The element that is open behind a tag, be it a block or without a type, and what can't be read of it.
fn begins_by(at: usize, tag: &str) -> (Option<Held>, Option<Unread>)
    ensures { result ≡ spec.begins_by (block_element (chars tag.now)) at (chars tag.now) }
{
    if let Some(element) = block_element(tag) {
        return (begun_by(element, at, tag), lacks_of(at, tag));
    }
    match untyped_element(tag) {
        Some(element) => (Some(Held::Unmarked(Open { element, begin: at })), None),
        None => (None, None),
    }
}

// The same behind a piece where no element is open.
fn outside(kind: Kind, at: usize, text: &str) -> (Option<Held>, Option<Unread>)
    ensures { result ≡ spec.outside kind at (chars text.now) }
{
    match kind {
        Kind::Tag => begins_by(at, text),
        _ => (None, None),
    }
}

impl Begun {
    // The same block, in which nothing stands if nothing did, and if this says so.
    fn still_bare(self, says: bool) -> Begun
        ensures { result ≡ spec.still_bare self says }
    {
        Begun {
            element: self.element,
            begin: self.begin,
            is_bare: self.is_bare && says,
        }
    }
}

// The block that is open behind a piece of one, and what can't be read.
fn inside(begun: Begun, kind: Kind, at: usize, text: &str) -> (Option<Held>, Option<Unread>)
    ensures { result ≡ spec.inside begun kind at (chars text.now) }
{
    if ends(begun.element, kind, text) {
        return (None, if_empty(begun.is_bare, begun.begin));
    }
    let includes = is_include(kind, text);
    let next = begun.still_bare(!includes && is_bare(kind, text));
    (Some(Held::Marked(next)), if_elsewhere(includes, at))
}

// The element that is open at a character, behind which this text stands.
fn still_held(current: Option<Held>, c: char, text: &str) -> Option<Held>
    requires { length (chars text.now) < 2 ^ 63 }
    ensures { result ≡ spec.still_held current c (chars text.now) }
{
    match current {
        Some(Held::Unmarked(_)) if c == '&' && reference(text).is_none() => None,
        _ => current,
    }
}

// An element without a type, whose end tag begins at an offset, with its content.
fn untyped(alloc: Global, opened: Open, content: &Gathered, end: usize) -> Result<Aside, AllocError>
    ensures { IfOk result (λ aside. aside ≡ spec.untyped opened content.now end) }
{
    let mut text = Gathered::new(alloc);
    text.add_block(content, end)?;
    Ok(Aside {
        unread: Unread {
            at: opened.begin,
            lack: Lack::Untyped,
        },
        text,
    })
}

// What can't be read, without a text.
fn without_text(alloc: Global, unread: Option<Unread>) -> Option<Aside>
    ensures { result ≡ spec.without_text unread }
{
    match unread {
        Some(unread) => Some(Aside {
            unread,
            text: Gathered::new(alloc),
        }),
        None => None,
    }
}

// Reads a piece in an element without a type, and returns the element that is open behind it, and what may have to be said.
fn read_unmarked(
    content: &mut Gathered,
    alloc: Global,
    opened: Open,
    kind: Kind,
    text: &str,
    at: usize,
) -> Result<(Option<Held>, Option<Aside>), AllocError>
    requires { at < 2 ^ 63 }
    ensures { IfOk result (λ next. (next.0, content.new, next.1) ≡ spec.open_behind (Some (Held.Unmarked opened)) content.old kind at (chars text.now)) }
{
    if ends(opened.element, kind, text) {
        let aside = untyped(alloc, opened, content, at)?;
        content.clear();
        return Ok((None, Some(aside)));
    }
    if starts_element(kind, text) {
        content.clear();
        let (next, unread) = outside(kind, at, text);
        return Ok((next, without_text(alloc, unread)));
    }
    put_piece(content, kind, text, at)?;
    Ok((Some(Held::Unmarked(opened)), None))
}

// Reads a piece outside of elements, or in the one that is open, and returns the same.
fn read(
    content: &mut Gathered,
    alloc: Global,
    current: Option<Held>,
    kind: Kind,
    text: &str,
    at: usize,
) -> Result<(Option<Held>, Option<Aside>), AllocError>
    requires { at < 2 ^ 63 }
    ensures { IfOk result (λ next. (next.0, content.new, next.1) ≡ spec.open_behind current content.old kind at (chars text.now)) }
{
    let (next, unread) = match current {
        Some(Held::Unmarked(opened)) => {
            return read_unmarked(content, alloc, opened, kind, text, at);
        }
        Some(Held::Marked(begun)) => inside(begun, kind, at, text),
        None => outside(kind, at, text),
    };
    content.clear();
    Ok((next, without_text(alloc, unread)))
}

// Adds what may have to be said, if there is something.
fn put_aside(found: &mut Vec<Aside>, aside: Option<Aside>) -> Result<(), AllocError>
    ensures { OnOk result (found.new.items ≡ found.old.items ++ spec.listed aside) }
{
    if let Some(aside) = aside {
        found.push(aside)?;
    }
    Ok(())
}

/// What may have to be said of a draft in RFCXML, up to its first fault, in its order.
///
/// Without a text there are each element `sourcecode` or `artwork` of type `abnf` with an attribute `src`, each `xi:include` in
/// an element of this type, and each such element in which nothing stands but white space, comments and tags. An element
/// `sourcecode` or `artwork` without a type, which isn't empty and has no `src`, is one of
/// [`Untyped`](origins::Lack::Untyped): its offset is that of its start tag, and its text is what a grammar would have of it.
/// Where no end tag comes, or another such element begins, or a reference can't be read, it is none. Offsets count characters.
///
/// Of a fault nothing is said here: [`gather_xml`](crate::gather_xml) reports it. Time and memory go by the length of the
/// draft.
///
/// # Errors
///
/// [`XmlFault::Memory`] alone, where an allocation is refused.
pub fn unread_blocks(alloc: Global, draft: &str) -> Result<Vec<Aside>, XmlFault>
    ensures found { IfOk result (λ found. found.items ≡ spec.unread_elements (chars draft.now)) }
    ensures memory { IfErr result (λ fault. fault ≡ XmlFault.Memory) }
{
    if draft.len() >= NO_OFFSET {
        return Err(XmlFault::Memory);
    }
    let mut found = Vec::new(alloc);
    let mut content = Gathered::new(alloc);
    let mut current: Option<Held> = None;
    let mut rest = draft;
    let mut at = 0usize;
    'pieces: loop {
        let Some((c, more)) = first(rest) else {
            return Ok(found);
        };
        let held = still_held(current, c, more);
        let in_block = held.is_some();
        let Ok(piece) = piece_at(in_block, at, c, more) else {
            return Ok(found);
        };
        let (text, left) = cut(in_block, piece, more);
        let (next, aside) = read(&mut content, alloc, held, piece.kind, text, at)?;
        put_aside(&mut found, aside)?;
        current = next;
        rest = left;
        at += 1 + char_count(text);
    }
}
