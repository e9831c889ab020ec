//! What is read of a message's parameters. `None` says that they can't be read.
ghost use Rattle.std.specs.Prelude.{◌≡◌, IfOk, codes, option_and_then, option_map, unwrap_or, if◌then◌else◌};
ghost use Rattle.serde_json.specs.Find.{as_str, get};
ghost use Rattle.serde_json.specs.View.{view, items_view};
ghost use Rattle.ls_session.specs.Language.{by_ending, encoding_for};
ghost use Rattle.ls_session.specs.declared.language.Format.TheVariants.{Abnf};
ghost use Rattle.serde_json.specs.Data.{null};
ghost use Rattle.ls_session.specs.Params.{document_member, uri_of, label_of, count_in, read_position, range_of, range_or_none, edit_of, edits_of, changes_of, named_format, did_open_of, did_change_of, cancel_of, event_of, asked_position, named_declarations, declarations_of, references_of, rename_of, action_of, ask_of, question_of, named_links, links_of, named_drafts, drafts_of, units_named, offer_of, first_offer, named_units, units_of_client, agreed_of};

use crate::kind::{NoticeKind, RequestKind};
use crate::language::{Format, by_ending, encoding_for, format_named};
use crate::members::{split, split_text};
use crate::session::Agreed;
use ls_answers::Ask;
use ls_lists::{List, Text};
use ls_machine::ClientEvent;
use ls_rpc::read_id;
use ls_text::{Edit, Encoding, Position, Range, Units};
use serde_json::Value;
use std::alloc::{AllocError as Memory, Global};

fn document_member<'v>(params: &'v Value, key: &str) -> Option<&'v Value>
    ensures { option_map (λ value. view value.now) result
        ≡ document_member key.now (view params.now) }
{
    params.get("textDocument")?.get(key)
}

/// The uri of a document, which is moved.
fn uri_in(document: Value) -> Option<Text>
    ensures { result ≡ option_and_then as_str (get (codes "uri") (view document)) }
{
    split_text(document, "uri").0
}

/// The uri of the document in parameters, which is moved.
fn uri(params: Value) -> Option<Text>
    ensures { result ≡ uri_of (view params) }
{
    split(params, "textDocument").0.and_then(uri_in)
}

fn label(params: &Value) -> i64
    ensures { result ≡ label_of (view params.now) }
{
    match document_member(params, "version") {
        Some(version) => version.as_i64().unwrap_or(0),
        None => 0,
    }
}

fn count(value: &Value) -> Option<u32>
    ensures { result ≡ count_in (view value.now) }
{
    let number = value.as_u64()?;
    Some(number.min(u32::MAX as u64) as u32)
}

fn position(value: &Value) -> Option<Position>
    ensures { result ≡ read_position (view value.now) }
{
    let line = count(value.get("line")?)?;
    let character = count(value.get("character")?)?;
    Some(Position { line, character })
}

fn range(value: &Value) -> Option<Range>
    ensures { result ≡ range_of (view value.now) }
{
    let start = position(value.get("start")?)?;
    let end = position(value.get("end")?)?;
    Some(Range { start, end })
}

fn range_or_none(value: Option<&Value>) -> Option<Option<Range>>
    ensures { result
        ≡ range_or_none (unwrap_or (option_map (λ value. view value.now) value.entry) null) }
{
    let Some(value) = value else {
        return Some(None);
    };
    match value {
        Value::Null => Some(None),
        Value::Object(_) => Some(Some(range(value)?)),
        _ => None,
    }
}

/// An edit, whose text is moved.
fn edit(value: Value) -> Option<Edit>
    ensures { result ≡ edit_of (view value) }
{
    let range = range_or_none(value.get("range"))?;
    let text = split_text(value, "text").0?;
    Some(Edit { range, text })
}

fn edits(alloc: Global, values: Vec<Value>) -> Result<Option<List<Edit>>, Memory>
    ensures { IfOk result (λ edits. edits ≡ edits_of (items_view values.items)) }
{
    // Most changes have one edit, for which a list takes no room to spare.
    let mut found = List::new(alloc);
    for value in values {
        match edit(value) {
            Some(edit) => found.push(edit)?,
            None => return Ok(None),
        }
    }
    Ok(Some(found))
}

fn changes(alloc: Global, params: Value) -> Result<Option<List<Edit>>, Memory>
    ensures { IfOk result (λ edits. edits ≡ changes_of (view params)) }
{
    let (changes, _) = split(params, "contentChanges");
    match changes {
        Some(Value::Array(values)) => edits(alloc, values),
        _ => Ok(None),
    }
}

fn named_format(params: &Value) -> Option<Format>
    ensures { result ≡ named_format (view params.now) }
{
    format_named(document_member(params, "languageId")?.as_str()?)
}

/// How a document with this uri is read: as a grammar unless drafts were agreed on, and else by what it is written in, which is what was
/// named, or what the ending of the uri says.
fn encoding(agreed: Agreed, uri: &str, named: Option<Format>) -> Encoding
    ensures { result ≡ encoding_for (if agreed.drafts then unwrap_or named (by_ending uri.now) else Abnf) agreed.units }
{
    if agreed.drafts {
        encoding_for(named.unwrap_or(by_ending(uri)), agreed.units)
    } else {
        encoding_for(Format::Abnf, agreed.units)
    }
}

fn did_open(agreed: Agreed, params: Value) -> Option<ClientEvent>
    ensures { result ≡ did_open_of agreed (view params) }
{
    let label = label(&params);
    let named = named_format(&params);
    let document = split(params, "textDocument").0?;
    let (uri, document) = split_text(document, "uri");
    let uri = uri?;
    let text = split_text(document, "text").0?;
    let encoding = encoding(agreed, uri.as_str(), named);
    Some(ClientEvent::DidOpen(uri, label, text, encoding))
}

/// A change that can't be read closes its document, since its text isn't known any more.
fn did_change(alloc: Global, params: Value) -> Result<Option<ClientEvent>, Memory>
    ensures { IfOk result (λ event. event ≡ did_change_of (view params)) }
{
    let label = label(&params);
    let (document, params) = split(params, "textDocument");
    let Some(uri) = document.and_then(uri_in) else {
        return Ok(None);
    };
    match changes(alloc, params)? {
        Some(edits) => Ok(Some(ClientEvent::DidChange(uri, label, edits))),
        None => Ok(Some(ClientEvent::DidClose(uri))),
    }
}

/// The id is an integer of `i64` or a text, as that of a request.
pub(crate) fn cancel(alloc: Global, params: &Value) -> Result<Option<ClientEvent>, Memory>
    ensures { IfOk result (λ event. event ≡ cancel_of (view params.now)) }
{
    match params.get("id") {
        Some(id) => Ok(read_id(alloc, id)?.map(ClientEvent::Cancel)),
        None => Ok(None),
    }
}

/// The event of a notice.
pub(crate) fn event(
    alloc: Global,
    agreed: Agreed,
    kind: NoticeKind,
    params: Value,
) -> Result<Option<ClientEvent>, Memory>
    ensures { IfOk result (λ event. event ≡ event_of agreed kind (view params)) }
{
    match kind {
        NoticeKind::DidOpen => Ok(did_open(agreed, params)),
        NoticeKind::DidChange => did_change(alloc, params),
        NoticeKind::DidClose => Ok(uri(params).map(ClientEvent::DidClose)),
        NoticeKind::CancelRequest => cancel(alloc, &params),
        NoticeKind::Exit | NoticeKind::Unknown => Ok(None),
    }
}

fn position_in(params: &Value) -> Option<Position>
    ensures { result ≡ asked_position (view params.now) }
{
    position(params.get("position")?)
}

/// Whether the places that define a name are asked for.
fn declarations(params: &Value) -> bool
    ensures { result ≡ declarations_of (view params.now) }
{
    named_declarations(params).unwrap_or(true)
}

fn named_declarations(params: &Value) -> Option<bool>
    ensures { result ≡ named_declarations (view params.now) }
{
    params.get("context")?.get("includeDeclaration")?.as_bool()
}

fn references(params: &Value) -> Option<Ask>
    ensures { result ≡ references_of (view params.now) }
{
    let position = position_in(params)?;
    Some(Ask::References(position, declarations(params)))
}

fn rename(alloc: Global, params: &Value) -> Result<Option<Ask>, Memory>
    ensures { IfOk result (λ ask. ask ≡ rename_of (view params.now)) }
{
    let Some(position) = position_in(params) else {
        return Ok(None);
    };
    let Some(name) = params.get("newName").and_then(Value::as_str) else {
        return Ok(None);
    };
    Ok(Some(Ask::Rename(position, Text::from_str(alloc, name)?)))
}

fn action(params: &Value) -> Option<Ask>
    ensures { result ≡ action_of (view params.now) }
{
    Some(Ask::Action(range(params.get("range")?)?))
}

/// The question of a request.
fn ask(alloc: Global, kind: RequestKind, params: &Value) -> Result<Option<Ask>, Memory>
    ensures { IfOk result (λ ask. ask ≡ ask_of kind (view params.now)) }
{
    match kind {
        RequestKind::Hover => Ok(position_in(params).map(Ask::Hover)),
        RequestKind::Definition => Ok(position_in(params).map(Ask::Definition)),
        RequestKind::References => Ok(references(params)),
        RequestKind::DocumentSymbol => Ok(Some(Ask::Symbols)),
        RequestKind::Rename => rename(alloc, params),
        RequestKind::CodeAction => Ok(action(params)),
        RequestKind::SemanticTokens => Ok(Some(Ask::Tokens)),
        RequestKind::Initialize | RequestKind::Shutdown | RequestKind::Unknown => Ok(None),
    }
}

/// The document's uri and the question of a request.
pub(crate) fn question(
    alloc: Global,
    kind: RequestKind,
    params: Value,
) -> Result<Option<(Text, Ask)>, Memory>
    ensures { IfOk result (λ question. question ≡ question_of kind (view params)) }
{
    let ask = ask(alloc, kind, &params)?;
    let Some(uri) = uri(params) else {
        return Ok(None);
    };
    match ask {
        Some(ask) => Ok(Some((uri, ask))),
        None => Ok(None),
    }
}

/// Whether the client takes edits of a workspace as `documentChanges`.
fn links(params: &Value) -> bool
    ensures { result ≡ links_of (view params.now) }
{
    named_links(params).unwrap_or(false)
}

fn named_links(params: &Value) -> Option<bool>
    ensures { result ≡ named_links (view params.now) }
{
    params
        .get("capabilities")?
        .get("workspace")?
        .get("workspaceEdit")?
        .get("documentChanges")?
        .as_bool()
}

/// Whether drafts are opened as such, for which `initializationOptions.drafts` asks (LSP 3.17, "Initialize Request":
/// `initializationOptions`); the member `drafts` is this server's own.
fn drafts(params: &Value) -> bool
    ensures { result ≡ drafts_of (view params.now) }
{
    named_drafts(params).unwrap_or(false)
}

fn named_drafts(params: &Value) -> Option<bool>
    ensures { result ≡ named_drafts (view params.now) }
{
    params
        .get("initializationOptions")?
        .get("drafts")?
        .as_bool()
}

/// What `initialize` settles.
pub(crate) fn agreed(params: &Value) -> Agreed
    ensures { result ≡ agreed_of (view params.now) }
{
    Agreed {
        links: links(params),
        units: units(params),
        drafts: drafts(params),
    }
}

/// The first of the client's offers that is known, and UTF-16 where there is none.
fn units(params: &Value) -> Units
    ensures { result ≡ units_of_client (view params.now) }
{
    named_units(params).unwrap_or(Units::Utf16)
}

fn named_units(params: &Value) -> Option<Units>
    ensures { result ≡ named_units (view params.now) }
{
    let offers = params
        .get("capabilities")?
        .get("general")?
        .get("positionEncodings")?
        .as_array()?;
    first_offer(offers)
}

fn first_offer(values: &Vec<Value>) -> Option<Units>
    ensures { result ≡ first_offer (items_view values.now.items) }
{
    for value in values {
        if let Some(units) = offer(value) {
            return Some(units);
        }
    }
    None
}

fn offer(value: &Value) -> Option<Units>
    ensures { result ≡ offer_of (view value.now) }
{
    units_named(value.as_str()?)
}

fn units_named(name: &str) -> Option<Units>
    ensures { result ≡ units_named name.now }
{
    if name == "utf-8" {
        Some(Units::Utf8)
    } else if name == "utf-16" {
        Some(Units::Utf16)
    } else if name == "utf-32" {
        Some(Units::Utf32)
    } else {
        None
    }
}
