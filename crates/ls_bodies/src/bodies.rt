//! The bodies of answers. `serde_json` writes each as a whole from the answer: no tree of JSON is made of it.
//!
//! They are functions and no impls of `Serialize` at each type, since those types stand in crates that know nothing of JSON.
ghost use Rattle.std.specs.Prelude.{◌≡◌, IfOk, OnOk, Ok};
ghost use Rattle.serde_json.specs.Data.{array, no_items};
ghost use Rattle.serde_json.specs.Events.{SendsValue};
ghost use Rattle.ls_bodies.specs.Bodies.{answer_json, answered_json, failure_body, findings_body, findings_json, found_json, hover_json, location_json, locations_json, plain_text_json, published_json, refusal_in, reply_body, symbol_json, symbols_json};

use crate::diagnostics::{write_diagnostics, write_draft_diagnostics};
use crate::edits::{write_actions, write_workspace_edit};
use crate::positions::write_range;
use crate::refusal::Refusal;
use crate::tokens::write_tokens;
use ls_answers::{Answer, DraftAnswer, HoverText, Symbol};
use ls_rpc::{Id, open_notice, open_reply};
use ls_text::Range;
use serde::{Described, Serialize, Serializer};
use serde_json::Value;
use std::alloc::{AllocError as Memory, Global};

/// `SymbolKind.Function` (LSP 3.17, "Document Symbols Request").
const FUNCTION: u32 = 12;

/// The body that replies to a request with an answer, about a document with this uri and the client's number of its version. `links` says
/// whether the client takes edits as `documentChanges` (LSP 3.17, "WorkspaceEdit"). A rename that isn't granted is answered by its error.
///
/// # Errors
///
/// Where an allocation is refused.
#[tactic(auto, unfolding(crate::specs::Bodies::reply_body))]
pub fn reply_body(
    alloc: Global,
    id: &Id,
    uri: &str,
    label: i64,
    links: bool,
    answer: &Answer,
) -> Result<Vec<u8>, Memory>
    ensures { IfOk result (λ body. body.items ≡ reply_body id.now uri.now label links answer.now) }
{
    if let Some(refusal) = refusal_in(answer) {
        return refusal.body(alloc, Some(id));
    }
    let document = Document { uri, label, links };
    let reply = Reply {
        id,
        document,
        answer,
    };
    written(serde_json::to_vec(alloc, &reply))
}

/// Why a rename isn't granted, if the answer says so.
fn refusal_in(answer: &Answer) -> Option<Refusal>
    ensures { result ≡ refusal_in answer.now }
{
    match answer {
        Answer::Refused(fault) => Some(Refusal::of_rename(*fault)),
        Answer::Draft(DraftAnswer::Refused(fault)) => Some(Refusal::in_draft(*fault)),
        _ => None,
    }
}

/// The body that replies to a request which was given up, by the code that is kept for it.
///
/// # Errors
///
/// Where an allocation is refused.
#[tactic(auto, unfolding(crate::specs::Bodies::failure_body))]
pub fn failure_body(alloc: Global, id: &Id, code: i32) -> Result<Vec<u8>, Memory>
    ensures { IfOk result (λ body. body.items ≡ failure_body id.now code) }
{
    Refusal::of_failure(code).body(alloc, Some(id))
}

/// The body that publishes what an answer found in a document, with the client's label of its version.
///
/// # Errors
///
/// Where an allocation is refused.
#[tactic(auto, unfolding(crate::specs::Bodies::findings_body))]
pub fn findings_body(
    alloc: Global,
    uri: &str,
    label: i64,
    answer: &Answer,
) -> Result<Vec<u8>, Memory>
    ensures { IfOk result (λ body. body.items ≡ findings_body uri.now label answer.now) }
{
    let published = Publication { uri, label, answer };
    written(serde_json::to_vec(alloc, &published))
}

/// What was written. Nothing but memory can fail: no key is a number, and no integer is wider than 64 bits.
fn written(text: serde_json::Result<Vec<u8>>) -> Result<Vec<u8>, Memory>
    ensures { IfOk result (λ body. text ≡ Ok body) }
{
    match text {
        Ok(body) => Ok(body),
        Err(_) => Err(Memory),
    }
}

/// The document that an answer is about.
#[derive(Drop)]
pub(crate) struct Document<'a> {
    pub(crate) uri: &'a str,
    /// The client's version of it.
    pub(crate) label: i64,
    /// Whether the client takes edits as `documentChanges`.
    pub(crate) links: bool,
}

/// A reply with an answer as its result.
#[derive(Drop)]
struct Reply<'a> {
    id: &'a Id,
    document: Document<'a>,
    answer: &'a Answer,
}

impl Described for Reply<'_> {
    ghost writes = { λ reply. SendsValue (answered_json reply.id.now reply.document.uri.now reply.document.label reply.document.links reply.answer.now) };
}

impl Serialize for Reply<'_> {
    fn serialize<S: Serializer>(&self, out: &mut S) -> Result<(), S::Error> {
        open_reply(out, self.id)?;
        write_answer(out, &self.document, self.answer)?;
        out.end_map()
    }
}

/// A notice of what was found in a document.
#[derive(Drop)]
struct Publication<'a> {
    uri: &'a str,
    label: i64,
    answer: &'a Answer,
}

impl Described for Publication<'_> {
    ghost writes = { λ published. SendsValue (published_json published.uri.now published.label published.answer.now) };
}

impl Serialize for Publication<'_> {
    fn serialize<S: Serializer>(&self, out: &mut S) -> Result<(), S::Error> {
        open_notice(out, "textDocument/publishDiagnostics")?;
        write_findings(out, self)?;
        out.end_map()
    }
}

/// The result that an answer is.
fn write_answer<S: Serializer>(
    out: &mut S,
    document: &Document<'_>,
    answer: &Answer,
) -> Result<(), S::Error>
    ensures { OnOk result (SendsValue (answer_json document.now.uri.now document.now.label document.now.links answer.now) (S.written out.old) (S.written out.new)) }
{
    match answer {
        Answer::Hover(Some(hover)) => write_hover(out, hover),
        Answer::Hover(None) => out.unit(),
        Answer::Places(ranges) => write_locations(out, document.uri, ranges.as_slice()),
        Answer::Symbols(symbols) => write_symbols(out, symbols.as_slice()),
        Answer::Edits(ranges, new) => {
            write_workspace_edit(out, document, new.as_str(), ranges.as_slice())
        }
        Answer::Refused(_) => out.unit(),
        Answer::Insert(Some(insertion)) => write_actions(out, document, insertion),
        Answer::Insert(None) => write_nothing(out),
        Answer::Numbers(numbers) => write_tokens(out, numbers.as_slice()),
        Answer::Findings(diagnostics) => write_diagnostics(out, diagnostics.as_slice()),
        Answer::Draft(DraftAnswer::Refused(_)) => out.unit(),
        Answer::Draft(DraftAnswer::Findings(diagnostics)) => {
            write_draft_diagnostics(out, diagnostics.as_slice())
        }
    }
}

/// An empty array.
fn write_nothing<S: Serializer>(out: &mut S) -> Result<(), S::Error>
    ensures { OnOk result (SendsValue (array no_items) (S.written out.old) (S.written out.new)) }
{
    out.begin_seq(Some(0))?;
    out.end_seq()
}

/// The findings that an answer has.
fn write_found<S: Serializer>(out: &mut S, answer: &Answer) -> Result<(), S::Error>
    ensures { OnOk result (SendsValue (found_json answer.now) (S.written out.old) (S.written out.new)) }
{
    match answer {
        Answer::Findings(diagnostics) => write_diagnostics(out, diagnostics.as_slice()),
        Answer::Draft(DraftAnswer::Findings(found)) => {
            write_draft_diagnostics(out, found.as_slice())
        }
        _ => write_nothing(out),
    }
}

/// `PublishDiagnosticsParams`.
fn write_findings<S: Serializer>(out: &mut S, published: &Publication<'_>) -> Result<(), S::Error>
    ensures { OnOk result (SendsValue (findings_json published.now.uri.now published.now.label published.now.answer.now) (S.written out.old) (S.written out.new)) }
{
    out.begin_map(Some(3))?;
    out.key("diagnostics")?;
    write_found(out, published.answer)?;
    out.key("uri")?;
    out.str(published.uri)?;
    out.key("version")?;
    Value::from(published.label).serialize(out)?;
    out.end_map()
}

/// `Hover`.
fn write_hover<S: Serializer>(out: &mut S, hover: &HoverText) -> Result<(), S::Error>
    ensures { OnOk result (SendsValue (hover_json hover.now) (S.written out.old) (S.written out.new)) }
{
    out.begin_map(Some(2))?;
    out.key("contents")?;
    write_plain_text(out, hover.text.as_str())?;
    out.key("range")?;
    write_range(out, hover.range)?;
    out.end_map()
}

/// `MarkupContent` of the kind `plaintext`.
fn write_plain_text<S: Serializer>(out: &mut S, text: &str) -> Result<(), S::Error>
    ensures { OnOk result (SendsValue (plain_text_json text.now) (S.written out.old) (S.written out.new)) }
{
    out.begin_map(Some(2))?;
    out.key("kind")?;
    out.str("plaintext")?;
    out.key("value")?;
    out.str(text)?;
    out.end_map()
}

/// `Location[]`.
fn write_locations<S: Serializer>(out: &mut S, uri: &str, ranges: &[Range]) -> Result<(), S::Error>
    ensures { OnOk result (SendsValue (locations_json uri.now ranges.now) (S.written out.old) (S.written out.new)) }
{
    out.begin_seq(Some(ranges.len()))?;
    for range in ranges {
        write_location(out, uri, *range)?;
    }
    out.end_seq()
}

fn write_location<S: Serializer>(out: &mut S, uri: &str, range: Range) -> Result<(), S::Error>
    ensures { OnOk result (SendsValue (location_json uri.now range) (S.written out.old) (S.written out.new)) }
{
    out.begin_map(Some(2))?;
    out.key("range")?;
    write_range(out, range)?;
    out.key("uri")?;
    out.str(uri)?;
    out.end_map()
}

/// `DocumentSymbol[]`.
fn write_symbols<S: Serializer>(out: &mut S, symbols: &[Symbol]) -> Result<(), S::Error>
    ensures { OnOk result (SendsValue (symbols_json symbols.now) (S.written out.old) (S.written out.new)) }
{
    out.begin_seq(Some(symbols.len()))?;
    for symbol in symbols {
        write_symbol(out, symbol)?;
    }
    out.end_seq()
}

fn write_symbol<S: Serializer>(out: &mut S, symbol: &Symbol) -> Result<(), S::Error>
    ensures { OnOk result (SendsValue (symbol_json symbol.now) (S.written out.old) (S.written out.new)) }
{
    out.begin_map(Some(4))?;
    out.key("kind")?;
    FUNCTION.serialize(out)?;
    out.key("name")?;
    out.str(symbol.name.as_str())?;
    out.key("range")?;
    write_range(out, symbol.range)?;
    out.key("selectionRange")?;
    write_range(out, symbol.name_range)?;
    out.end_map()
}
