//! Tags.

ghost use Rattle.std.specs.Prelude.{◌≡◌, ◌<◌, ◌^◌, ◌+◌, None, IfSome, length};
ghost use Rattle.std.specs.Str.{chars};
ghost use Rattle.xml_blocks.specs.own.Reading.{element_if_abnf};
ghost use Rattle.xml_blocks.specs.Unread.{is_start};
ghost use Rattle.xml_blocks.specs.Xml as spec;

use crate::text::{
    begins, behind, char_at, char_count, first, is_quote, is_space, until, without_space,
};

// An element whose content can be ABNF.
#[derive(Clone, Copy)]
pub enum Element {
    Sourcecode,
    Artwork,
}

impl Element {
    // The name of the element.
    fn name(self) -> &'static [char]
        ensures { result.now ≡ spec.element_name self }
    {
        match self {
            Element::Sourcecode => &['s', 'o', 'u', 'r', 'c', 'e', 'c', 'o', 'd', 'e'],
            Element::Artwork => &['a', 'r', 't', 'w', 'o', 'r', 'k'],
        }
    }

    // How many characters the name has.
    fn name_len(self) -> usize
        ensures { result ≡ spec.name_len self }
    {
        match self {
            Element::Sourcecode => 10,
            Element::Artwork => 7,
        }
    }

    // Whether a start tag without its `<` has this name, with white space behind it.
    fn is_named(self, tag: &str) -> bool
        ensures { result ≡ spec.is_tag_of self (chars tag.now) }
    {
        begins(tag, self.name()) && is_space(char_at(tag, self.name_len()))
    }

    // Whether a start tag without its `<` has this name, with white space behind it, or nothing more.
    pub fn is_start(self, tag: &str) -> bool
        ensures { result ≡ is_start self (chars tag.now) }
    {
        let behind = char_at(tag, self.name_len());
        begins(tag, self.name()) && (is_space(behind) || behind == '>')
    }

    // Whether a tag without its `<` is the end tag of this element.
    pub fn is_end(self, tag: &str) -> bool
        ensures { result ≡ spec.is_end_tag self (chars tag.now) }
    {
        let name = behind(tag, 1);
        char_at(tag, 0) == '/'
            && begins(name, self.name())
            && char_at(without_space(behind(name, self.name_len())), 0) == '>'
    }
}

// The quote that is open behind a character.
pub fn open_quote(quote: Option<char>, c: char) -> Option<char>
    ensures { result ≡ spec.open_quote quote c }
{
    match quote {
        Some(q) => if c == q { None } else { quote },
        None => if is_quote(c) { Some(c) } else { None },
    }
}

// Whether a character is a `>` outside of quotes.
fn closes(quote: Option<char>, c: char) -> bool
    ensures { result ≡ spec.closes_tag quote c }
{
    c == '>' && quote.is_none()
}

// How many characters a text has up to the first `>` outside of quotes, and with it.
fn quoted_len(text: &str) -> Option<usize>
    requires { length (chars text.now) < 2 ^ 63 }
    ensures count { result ≡ spec.quoted_len None (chars text.now) }
    ensures small { IfSome result (λ n. n < 2 ^ 63 + 1) }
{
    let mut rest = text;
    let mut quote: Option<char> = None;
    let mut count = 0usize;
    'characters: loop {
        let Some((c, more)) = first(rest) else {
            return None;
        };
        count += 1;
        if closes(quote, c) {
            return Some(count);
        }
        quote = open_quote(quote, c);
        rest = more;
    }
}

// How many characters a tag has behind its `<`.
pub fn tag_len(text: &str) -> Option<usize>
    requires { length (chars text.now) < 2 ^ 63 }
    ensures count { result ≡ spec.tag_len (chars text.now) }
    ensures small { IfSome result (λ n. n < 2 ^ 63 + 1) }
{
    if char_at(text, 0).is_ascii_alphabetic() {
        return quoted_len(text);
    }
    match until(text, b">") {
        Some(count) => Some(count + 1),
        None => None,
    }
}

// Whether `abnf` stands here, in any case of letters.
fn is_abnf_word(text: &str) -> bool
    ensures { result ≡ spec.begins_abnf_word (chars text.now) }
{
    char_at(text, 0).to_ascii_lowercase() == 'a'
        && char_at(text, 1).to_ascii_lowercase() == 'b'
        && char_at(text, 2).to_ascii_lowercase() == 'n'
        && char_at(text, 3).to_ascii_lowercase() == 'f'
}

// Whether a value in quotes stands here that is `abnf`.
fn is_abnf_value(text: &str) -> bool
    ensures { result ≡ spec.is_abnf_value (chars text.now) }
{
    let quote = char_at(text, 0);
    is_quote(quote) && is_abnf_word(behind(text, 1)) && char_at(text, 5) == quote
}

// Whether an attribute `type` stands here whose value is `abnf`.
fn is_abnf_type(text: &str) -> bool
    ensures { result ≡ spec.is_abnf_type (chars text.now) }
{
    if !begins(text, &['t', 'y', 'p', 'e']) {
        return false;
    }
    let equals = without_space(behind(text, 4));
    char_at(equals, 0) == '=' && is_abnf_value(without_space(behind(equals, 1)))
}

// Whether such an attribute begins behind a character.
fn begins_type(quote: Option<char>, c: char, text: &str) -> bool
    ensures { result ≡ spec.begins_type quote c (chars text.now) }
{
    quote.is_none() && is_space(c) && is_abnf_type(text)
}

// Whether a tag without its `<` has such an attribute.
fn has_abnf_type(tag: &str) -> bool
    ensures { result ≡ spec.has_abnf_type None (chars tag.now) }
{
    let mut rest = tag;
    let mut quote: Option<char> = None;
    'characters: loop {
        let Some((c, more)) = first(rest) else {
            return false;
        };
        if begins_type(quote, c, more) {
            return true;
        }
        quote = open_quote(quote, c);
        rest = more;
    }
}

// Whether a tag ends in `/>`.
pub fn is_empty_element(tag: &str) -> bool
    ensures { result ≡ spec.is_empty_element (chars tag.now) }
{
    char_at(tag, char_count(tag).saturating_sub(2)) == '/'
}

// This element of a tag without its `<`, if its `type` is `abnf`.
fn if_abnf(tag: &str, element: Element) -> Option<Element>
    ensures { result ≡ element_if_abnf (chars tag.now) element }
{
    if has_abnf_type(tag) {
        Some(element)
    } else {
        None
    }
}

// The element of a tag without its `<` that is a block of ABNF, empty or not. Few tags are searched for the attribute, since few have the name.
pub fn block_element(tag: &str) -> Option<Element>
    ensures { result ≡ spec.block_element (chars tag.now) }
{
    if Element::Sourcecode.is_named(tag) {
        if_abnf(tag, Element::Sourcecode)
    } else if Element::Artwork.is_named(tag) {
        if_abnf(tag, Element::Artwork)
    } else {
        None
    }
}

// The element that a tag without its `<` begins, if its content is ABNF.
pub fn opening(tag: &str) -> Option<Element>
    ensures { result ≡ spec.opening_element (chars tag.now) }
{
    let Some(element) = block_element(tag) else {
        return None;
    };
    if is_empty_element(tag) {
        None
    } else {
        Some(element)
    }
}
