//! The blocks of a draft, gathered.

ghost use Rattle.std.specs.Prelude.{◌≡◌, ◌<◌, ◌^◌, ◌++◌, List, IfOk, OnOk, length};
ghost use Rattle.std.specs.Str.{chars};
ghost use Rattle.origins.specs.Origins.{Sourced, gathered_grammar};
ghost use Rattle.xml_blocks.specs.own.Reading.{reading_element};
ghost use Rattle.xml_blocks.specs.Xml as spec;

use crate::fault::XmlFault;
use crate::piece::{Kind, cut, piece_at};
use crate::tag::{Element, opening};
use crate::text::{before, behind, char_count, first};
use origins::Gathered;
use std::alloc::{AllocError, Global};

// No text that fits into memory has such an offset.
pub const NO_OFFSET: usize = 0x8000_0000_0000_0000;

// A block that is open.
#[derive(Clone, Copy)]
pub struct Open {
    // The element whose content it is.
    pub element: Element,
    // The offset at which the element's start tag begins.
    pub begin: usize,
}

// Adds the characters of a block that a piece stands for, by what it has behind its first character.
pub fn put_piece(block: &mut Gathered, kind: Kind, text: &str, at: usize) -> Result<(), AllocError>
    requires { at < 2 ^ 63 }
    ensures { OnOk result (block.new ≡ block.old ++ spec.piece_content kind at (chars text.now)) }
{
    match kind {
        Kind::Text(c) => {
            block.put(c, at)?;
            block.copy(text, at + 1)
        }
        Kind::Section => block.copy(section_text(text), at + 9),
        Kind::Reference(c) => block.put(c, at),
        Kind::Comment | Kind::Tag => Ok(()),
    }
}

// What a section has between `<![CDATA[` and `]]>`, by what it has behind its `<`.
pub fn section_text(text: &str) -> &str
    ensures { chars result.now ≡ spec.section_text (chars text.now) }
{
    before(behind(text, 8), char_count(text).saturating_sub(11))
}

// The block that a piece at an offset begins.
fn opened_by(kind: Kind, text: &str, at: usize) -> Option<Open>
    ensures { result ≡ spec.opened_by kind at (chars text.now) }
{
    let Kind::Tag = kind else {
        return None;
    };
    let element = opening(text)?;
    Some(Open { element, begin: at })
}

// Whether a piece is the end tag of an element.
pub fn ends(element: Element, kind: Kind, text: &str) -> bool
    ensures { result ≡ spec.closes_element element kind (chars text.now) }
{
    match kind {
        Kind::Tag => element.is_end(text),
        _ => false,
    }
}

// Reads a piece outside of blocks, or in the block that is open, and returns the block that is open behind it.
fn read(
    grammar: &mut Gathered,
    block: &mut Gathered,
    current: Option<Open>,
    kind: Kind,
    text: &str,
    at: usize,
) -> Result<Option<Open>, AllocError>
    requires { at < 2 ^ 63 }
    ensures state { IfOk result (λ next. reading_element next block.new ≡ (spec.behind_piece (reading_element current block.old) kind at (chars text.now)).0) }
    ensures ended { IfOk result (λ next. grammar.new ≡ grammar.old ++ gathered_grammar (spec.behind_piece (reading_element current block.old) kind at (chars text.now)).1) }
{
    let Some(opened) = current else {
        block.clear();
        return Ok(opened_by(kind, text, at));
    };
    if ends(opened.element, kind, text) {
        grammar.add_block(block, at)?;
        return Ok(None);
    }
    put_piece(block, kind, text, at)?;
    Ok(current)
}

// The fault of a block that is open at the end of the draft.
fn fault_at_end(current: Option<Open>) -> Option<XmlFault>
    ensures { (content : List Sourced) → result ≡ (spec.at_end (reading_element current content)).fault }
{
    match current {
        Some(opened) => Some(XmlFault::BlockWithoutEnd(opened.begin)),
        None => None,
    }
}

// Adds the block that is open, if there is one: it ends at this offset.
fn end_at(
    grammar: &mut Gathered,
    block: &Gathered,
    current: Option<Open>,
    at: usize,
) -> Result<(), AllocError>
    ensures { OnOk result (grammar.new ≡ grammar.old ++ gathered_grammar (spec.ended_at (reading_element current block.now) at)) }
{
    match current {
        Some(_) => grammar.add_block(block, at),
        None => Ok(()),
    }
}

/// What can be read of a draft in RFCXML.
#[derive(Drop)]
pub struct XmlFront {
    /// The grammar of all blocks of ABNF in front of the first fault, as [`gather_xml`] has it. The block that a fault stands in
    /// counts as far as it goes, and ends at the fault; one whose end tag doesn't come doesn't count.
    pub grammar: Gathered,
    /// The first fault of the draft, if it has one.
    pub fault: Option<XmlFault>,
}

/// What can be read of a draft in RFCXML: the grammar of its blocks up to its first fault, and that fault. Time and memory go
/// by the length of the draft.
///
/// # Errors
///
/// Where an allocation is refused.
pub fn gather_front(alloc: Global, draft: &str) -> Result<XmlFront, AllocError>
    ensures grammar { IfOk result (λ front. front.grammar ≡ gathered_grammar (spec.front_blocks (chars draft.now))) }
    ensures fault { IfOk result (λ front. front.fault ≡ spec.first_xml_fault (chars draft.now)) }
{
    if draft.len() >= NO_OFFSET {
        return Err(AllocError);
    }
    let mut grammar = Gathered::new(alloc);
    let mut block = Gathered::new(alloc);
    let mut current: Option<Open> = None;
    let mut rest = draft;
    let mut at = 0usize;
    'pieces: loop {
        let Some((c, more)) = first(rest) else {
            let fault = fault_at_end(current);
            return Ok(XmlFront { grammar, fault });
        };
        let in_block = current.is_some();
        let piece = match piece_at(in_block, at, c, more) {
            Ok(found) => found,
            Err(fault) => {
                end_at(&mut grammar, &block, current, at)?;
                return Ok(XmlFront {
                    grammar,
                    fault: Some(fault),
                });
            }
        };
        let (text, left) = cut(in_block, piece, more);
        current = read(&mut grammar, &mut block, current, piece.kind, text, at)?;
        rest = left;
        at += 1 + char_count(text);
    }
}

/// The grammar of all blocks of ABNF in a draft in RFCXML, one behind the other, with the offset of each character in the
/// draft. A draft without blocks has an empty one.
///
/// A block's characters are there without the indentation of the block, with those for which references and CDATA
/// sections stand. Each block has a line end more, which stands where its end tag begins. Time and memory go by the
/// length of the draft.
///
/// # Errors
///
/// The first fault of the draft, at its offset in characters, or [`XmlFault::Memory`] where an allocation is refused.
pub fn gather_xml(alloc: Global, draft: &str) -> Result<Gathered, XmlFault>
    ensures { spec.IsGathered (chars draft.now) result }
{
    let front = gather_front(alloc, draft)?;
    match front.fault {
        Some(fault) => Err(fault),
        None => Ok(front.grammar),
    }
}
