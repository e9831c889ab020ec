//! Elements that nothing says what they are, and the attributes that would.

ghost use Rattle.std.specs.Prelude.{◌≡◌, None};
ghost use Rattle.std.specs.Str.{chars};
ghost use Rattle.xml_blocks.specs.Unread as spec;

use crate::piece::Kind;
use crate::tag::{Element, is_empty_element, open_quote};
use crate::text::{begins, behind, char_at, first, is_space, without_space};

// Whether an attribute of this name stands here.
fn is_attribute(name: &[char], text: &str) -> bool
    ensures { result ≡ spec.is_attribute name.now (chars text.now) }
{
    begins(text, name) && char_at(without_space(behind(text, name.len())), 0) == '='
}

// Whether it begins behind a character.
fn begins_attribute(name: &[char], quote: Option<char>, c: char, text: &str) -> bool
    ensures { result ≡ spec.begins_attribute name.now quote c (chars text.now) }
{
    quote.is_none() && is_space(c) && is_attribute(name, text)
}

// Whether a tag without its `<` has it.
fn has_attribute(name: &[char], tag: &str) -> bool
    ensures { result ≡ spec.has_attribute name.now None (chars tag.now) }
{
    let mut rest = tag;
    let mut quote: Option<char> = None;
    'characters: loop {
        let Some((c, more)) = first(rest) else {
            return false;
        };
        if begins_attribute(name, quote, c, more) {
            return true;
        }
        quote = open_quote(quote, c);
        rest = more;
    }
}

// Whether a tag without its `<` has the attribute `src`.
pub fn has_src(tag: &str) -> bool
    ensures { result ≡ spec.has_attribute spec.src None (chars tag.now) }
{
    has_attribute(&['s', 'r', 'c'], tag)
}

// Whether it has the attribute `type`.
fn has_type(tag: &str) -> bool
    ensures { result ≡ spec.has_attribute spec.type_word None (chars tag.now) }
{
    has_attribute(&['t', 'y', 'p', 'e'], tag)
}

// The element that a tag without its `<` begins, whatever attributes it has.
fn started_element(tag: &str) -> Option<Element>
    ensures { result ≡ spec.started_element (chars tag.now) }
{
    if Element::Sourcecode.is_start(tag) {
        Some(Element::Sourcecode)
    } else if Element::Artwork.is_start(tag) {
        Some(Element::Artwork)
    } else {
        None
    }
}

// The element that a tag without its `<` begins, if it has no type. Few tags are searched for attributes, since few have the name.
pub fn untyped_element(tag: &str) -> Option<Element>
    ensures { result ≡ spec.untyped_element (chars tag.now) }
{
    let element = started_element(tag)?;
    if has_type(tag) || has_src(tag) || is_empty_element(tag) {
        None
    } else {
        Some(element)
    }
}

// Whether a piece begins an element.
pub fn starts_element(kind: Kind, text: &str) -> bool
    ensures { result ≡ spec.starts_element kind (chars text.now) }
{
    match kind {
        Kind::Tag => started_element(text).is_some(),
        _ => false,
    }
}
