//! The JSON of edits and of code actions (LSP 3.17, "WorkspaceEdit" and "Code Action Request").
ghost use Rattle.std.specs.Prelude.{◌≡◌, [], ◌∷◌, OnOk, Some};
ghost use Rattle.serde_json.specs.Events.{SendsValue};
ghost use Rattle.draft_grammars.specs.Places.{empty_range};
ghost use Rattle.ls_bodies.specs.Edits.{action_json, actions_json, changes_json, document_changes_json, document_edit_json, edit_json, edits_json, versioned_json, workspace_edit_json};

use crate::bodies::Document;
use crate::positions::write_range;
use ls_answers::Insertion;
use ls_text::{Position, Range};
use serde::{Serialize, Serializer};
use serde_json::Value;

/// `WorkspaceEdit`: a new text in the place of what stands in each range of one document.
pub(crate) fn write_workspace_edit<S: Serializer>(
    out: &mut S,
    document: &Document<'_>,
    new: &str,
    ranges: &[Range],
) -> Result<(), S::Error>
    ensures { OnOk result (SendsValue (workspace_edit_json document.now.uri.now document.now.label document.now.links (edits_json new.now ranges.now))
        (S.written out.old) (S.written out.new)) }
{
    if document.links {
        write_document_changes(out, document, new, ranges)
    } else {
        write_changes(out, document, new, ranges)
    }
}

/// The `changes` of a `WorkspaceEdit`.
fn write_changes<S: Serializer>(
    out: &mut S,
    document: &Document<'_>,
    new: &str,
    ranges: &[Range],
) -> Result<(), S::Error>
    ensures { OnOk result (SendsValue (changes_json document.now.uri.now (edits_json new.now ranges.now)) (S.written out.old) (S.written out.new)) }
{
    out.begin_map(Some(1))?;
    out.key("changes")?;
    out.begin_map(Some(1))?;
    out.key(document.uri)?;
    write_edits(out, new, ranges)?;
    out.end_map()?;
    out.end_map()
}

/// The `documentChanges` of a `WorkspaceEdit`: those of one document.
fn write_document_changes<S: Serializer>(
    out: &mut S,
    document: &Document<'_>,
    new: &str,
    ranges: &[Range],
) -> Result<(), S::Error>
    ensures { OnOk result (SendsValue (document_changes_json document.now.uri.now document.now.label (edits_json new.now ranges.now)) (S.written out.old) (S.written out.new)) }
{
    out.begin_map(Some(1))?;
    out.key("documentChanges")?;
    out.begin_seq(Some(1))?;
    write_document_edit(out, document, new, ranges)?;
    out.end_seq()?;
    out.end_map()
}

/// `TextDocumentEdit`.
fn write_document_edit<S: Serializer>(
    out: &mut S,
    document: &Document<'_>,
    new: &str,
    ranges: &[Range],
) -> Result<(), S::Error>
    ensures { OnOk result (SendsValue (document_edit_json document.now.uri.now document.now.label (edits_json new.now ranges.now)) (S.written out.old) (S.written out.new)) }
{
    out.begin_map(Some(2))?;
    out.key("edits")?;
    write_edits(out, new, ranges)?;
    out.key("textDocument")?;
    write_versioned(out, document)?;
    out.end_map()
}

/// `OptionalVersionedTextDocumentIdentifier`.
fn write_versioned<S: Serializer>(out: &mut S, document: &Document<'_>) -> Result<(), S::Error>
    ensures { OnOk result (SendsValue (versioned_json document.now.uri.now document.now.label) (S.written out.old) (S.written out.new)) }
{
    out.begin_map(Some(2))?;
    out.key("uri")?;
    out.str(document.uri)?;
    out.key("version")?;
    Value::from(document.label).serialize(out)?;
    out.end_map()
}

/// `TextEdit[]`.
fn write_edits<S: Serializer>(out: &mut S, new: &str, ranges: &[Range]) -> Result<(), S::Error>
    ensures { OnOk result (SendsValue (edits_json new.now ranges.now) (S.written out.old) (S.written out.new)) }
{
    out.begin_seq(Some(ranges.len()))?;
    for range in ranges {
        write_edit(out, new, *range)?;
    }
    out.end_seq()
}

/// `TextEdit`.
fn write_edit<S: Serializer>(out: &mut S, new: &str, range: Range) -> Result<(), S::Error>
    ensures { OnOk result (SendsValue (edit_json new.now range) (S.written out.old) (S.written out.new)) }
{
    out.begin_map(Some(2))?;
    out.key("newText")?;
    out.str(new)?;
    out.key("range")?;
    write_range(out, range)?;
    out.end_map()
}

/// A list of one action.
pub(crate) fn write_actions<S: Serializer>(
    out: &mut S,
    document: &Document<'_>,
    insertion: &Insertion,
) -> Result<(), S::Error>
    ensures { OnOk result (SendsValue (actions_json document.now.uri.now document.now.label document.now.links (Some insertion.now)) (S.written out.old) (S.written out.new)) }
{
    out.begin_seq(Some(1))?;
    write_action(out, document, insertion)?;
    out.end_seq()
}

/// `CodeAction`.
fn write_action<S: Serializer>(
    out: &mut S,
    document: &Document<'_>,
    insertion: &Insertion,
) -> Result<(), S::Error>
    ensures { OnOk result (SendsValue (action_json document.now.uri.now document.now.label document.now.links insertion.now) (S.written out.old) (S.written out.new)) }
{
    out.begin_map(Some(3))?;
    out.key("edit")?;
    write_insertion(out, document, insertion)?;
    out.key("kind")?;
    out.str("refactor")?;
    out.key("title")?;
    out.str("Insert shortest example")?;
    out.end_map()
}

/// The edit that inserts a text.
fn write_insertion<S: Serializer>(
    out: &mut S,
    document: &Document<'_>,
    insertion: &Insertion,
) -> Result<(), S::Error>
    ensures { OnOk result (SendsValue (workspace_edit_json document.now.uri.now document.now.label document.now.links (edits_json insertion.now.text (empty_range insertion.now.position ∷ [])))
        (S.written out.old) (S.written out.new)) }
{
    let ranges = [empty_range(insertion.position)];
    write_workspace_edit(out, document, insertion.text.as_str(), &ranges)
}

/// The range at a position in which nothing stands.
fn empty_range(position: Position) -> Range
    ensures { result ≡ empty_range position }
{
    Range {
        start: position,
        end: position,
    }
}
