//! What is said behind messages: a known name that is near, and what may be meant by a fault of syntax.

ghost use Rattle.std.specs.Prelude.{◌≡◌, ◌++◌, IfOk, codes, count_by, drop, map, string_bytes};
ghost use Rattle.std.specs.Option.{option_map};
ghost use Rattle.near_names.specs.Near.{nearest};
ghost use Rattle.findings_text.specs.Hints as spec;
ghost use Rattle.findings_text.specs.Rules.{head_at};

use crate::rules::{Head, heads_of};
use abnf_lint::{Code, Finding};
use abnf_names::Grammar;
use abnf_syntax::SyntaxFault;
use ls_lists::List;
use ls_text::{Place, Snapshot};
use near_names::nearest;
use std::alloc::{AllocError as Memory, Global};

/// So many pairs of names are compared at most.
const MOST_PAIRS: usize = 100_000;

/// The names of the core rules, in the order of RFC 5234, appendix B.1.
const CORE_NAMES: [&str; 16] = [
    "ALPHA", "BIT", "CHAR", "CR", "CRLF", "CTL", "DIGIT", "DQUOTE", "HEXDIG", "HTAB", "LF", "LWSP",
    "OCTET", "SP", "VCHAR", "WSP",
];

/// Whether a name stands for nothing.
pub(crate) fn is_undefined(finding: &Finding) -> bool
    ensures { result ≡ spec.is_undefined finding.now }
{
    match finding.code {
        Code::Undefined => true,
        _ => false,
    }
}

/// How many names stand for nothing.
fn unknown_count(found: &[Finding]) -> usize
    ensures { result ≡ count_by spec.is_undefined found.now }
{
    let mut count = 0usize;
    for finding in found {
        if is_undefined(finding) {
            count += 1;
        }
    }
    count
}

/// The names of the core rules.
fn core_names() -> &'static [&'static str]
    ensures { map (λ name. name.now) result.now ≡ spec.core_names }
{
    &CORE_NAMES
}

/// The names of rules, as each is first defined.
fn head_names<'t>(alloc: Global, heads: &[Head<'t>]) -> Result<List<&'t str>, Memory>
    ensures { IfOk result (λ names. map (λ name. name.now) names ≡ spec.head_names (map head_at heads.now)) }
{
    let mut names = List::new(alloc);
    for head in heads {
        names.push(head.spot.name.0)?;
    }
    Ok(names)
}

/// These names, and then those of the core rules.
fn and_core_names<'t>(names: List<&'t str>) -> Result<List<&'t str>, Memory>
    ensures { IfOk result (λ known. map (λ name. name.now) known ≡ map (λ name. name.now) names.entry ++ spec.core_names) }
{
    let mut known = names;
    for name in core_names() {
        known.push(*name)?;
    }
    Ok(known)
}

/// The known names: of the rules, as each is first defined, and then of the core rules.
fn known_names<'t>(alloc: Global, grammar: &Grammar<'t>) -> Result<List<&'t str>, Memory>
    ensures { IfOk result (λ known. map (λ name. name.now) known ≡ spec.known_names grammar.now) }
{
    let heads = heads_of(alloc, grammar)?;
    let names = head_names(alloc, heads.as_slice())?;
    and_core_names(names)
}

/// Whether so many names are compared with so many known ones.
fn is_compared(unknown: usize, known: usize) -> bool
    ensures { result ≡ spec.are_compared unknown known }
{
    unknown >= 1 && unknown.saturating_mul(known) <= MOST_PAIRS
}

/// The names with which those that stand for nothing are compared.
pub(crate) fn compared<'t>(
    alloc: Global,
    grammar: &Grammar<'t>,
    found: &[Finding],
) -> Result<List<&'t str>, Memory>
    ensures { IfOk result (λ names. map (λ name. name.now) names ≡ spec.compared found.now (spec.known_names grammar.now)) }
{
    let unknown = unknown_count(found);
    if unknown == 0 {
        return Ok(List::new(alloc));
    }
    let known = known_names(alloc, grammar)?;
    if is_compared(unknown, known.len()) {
        Ok(known)
    } else {
        Ok(List::new(alloc))
    }
}

/// What is said of a known name that is near.
fn hint_with(alloc: Global, name: &str) -> Result<String, Memory>
    ensures { IfOk result (λ text. string_bytes text ≡ codes ", did you mean " ++ name.now ++ codes "?") }
{
    let mut text = String::from_str(alloc, ", did you mean ")?;
    text.push_str(name)?;
    text.push_str("?")?;
    Ok(text)
}

/// What is said of a known name if one is near.
fn hint(alloc: Global, near: Option<&str>) -> Result<String, Memory>
    ensures { IfOk result (λ text. string_bytes text ≡ spec.hint (option_map (λ name. name.now) near.entry)) }
{
    match near {
        None => Ok(String::new(alloc)),
        Some(name) => hint_with(alloc, name),
    }
}

/// What is said of a name that stands for nothing.
fn hint_of(alloc: Global, known: &[&str], name: &str) -> Result<String, Memory>
    ensures { IfOk result (λ text. string_bytes text ≡ spec.hint (nearest name.now (map (λ name. name.now) known.now))) }
{
    let near = nearest(alloc, name, known)?;
    hint(alloc, near)
}

/// The message of a finding. Behind it stands the known name that is nearest to one that stands for nothing.
pub(crate) fn message(alloc: Global, known: &[&str], finding: &Finding) -> Result<String, Memory>
    ensures { IfOk result (λ text. string_bytes text ≡ spec.message (map (λ name. name.now) known.now) finding.now) }
{
    let message = finding.message(alloc)?;
    let mut text = String::from_str(alloc, message.as_str())?;
    if is_undefined(finding) {
        let hint = hint_of(alloc, known, finding.name.as_str())?;
        text.push_str(hint.as_str())?;
    }
    Ok(text)
}

/// A line of a text, empty behind the last.
fn line_at(text: &Snapshot, at: usize) -> &str
    ensures { result.now ≡ spec.line_bytes text.now at }
{
    match text.line(at) {
        Some(line) => line,
        None => "",
    }
}

/// The bytes of a line from a place on.
fn bytes_from(line: &str, at: usize) -> &[u8]
    ensures { result.now ≡ drop at line.now }
{
    let bytes = line.as_bytes();
    if at < bytes.len() { &bytes[at..] } else { &[] }
}

/// What is said where a `#` or a `\` stands in a line.
fn character_hint(line: &str, at: usize) -> &'static str
    ensures { result.now ≡ spec.character_hint line.now at }
{
    match line.as_bytes().get(at) {
        Some(b'#') => ", lists by # are an extension of HTTP (RFC 9110, section 5.6.1)",
        Some(b'\\') => ", lines that are folded by \\ are not joined (RFC 8792)",
        _ => "",
    }
}

/// What is said where no name begins a block, in this line.
fn front_hint(line: &str, place: Place) -> &'static str
    ensures { result.now ≡ spec.front_hint line.now place }
{
    let bytes = bytes_from(line, place.start);
    if place.line == 0 && place.start == 0 && bytes.starts_with(b"\xEF\xBB\xBF") {
        ", a byte order mark"
    } else if bytes.starts_with(b"{::") {
        ", what kramdown includes is not read"
    } else {
        ""
    }
}

/// What is said behind the message of a fault of syntax: that a `#` is HTTP's and a `\` folds lines, and that a text begins with a byte
/// order mark or a block with what kramdown includes.
pub(crate) fn fault_hint(text: &Snapshot, finding: &Finding) -> &'static str
    ensures { result.now ≡ spec.fault_hint text.now finding.now.code }
{
    match finding.code {
        Code::Syntax(SyntaxFault::BadToken(place)) => {
            character_hint(line_at(text, place.line), place.start)
        }
        Code::Syntax(SyntaxFault::ElementExpected(place)) => {
            character_hint(line_at(text, place.line), place.end)
        }
        Code::Syntax(SyntaxFault::NoName(place)) => front_hint(line_at(text, place.line), place),
        _ => "",
    }
}
