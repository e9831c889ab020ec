//! The result of `initialize`: what the server can do.
ghost use Rattle.std.specs.Prelude.{◌≡◌, IfOk};
ghost use Rattle.serde_json.specs.View.{view, members_view};
ghost use Rattle.ls_session.specs.Initialize.{units_name, initialize_json, capabilities_json, semantic_tokens_json, served_json, sync_json};

use crate::legend::legend_value;
use ls_text::Units;
use serde_json::{Map, Value, put};
use std::alloc::{AllocError as Memory, Global};

/// `TextDocumentSyncKind.Incremental`: changes of a document come as edits (LSP 3.17, "Text Document
/// Synchronization").
const SYNC_INCREMENTAL: u32 = 2;

/// The result of `initialize`, with the units that were agreed (LSP 3.17, "Initialize Request").
pub(crate) fn initialize_value(alloc: Global, units: Units) -> Result<Value, Memory>
    ensures { IfOk result (λ value. view value ≡ initialize_json units) }
{
    let capabilities = capabilities_value(alloc, units)?;
    let name = Value::try_from_str(alloc, "abnf_ls")?;
    let mut server = Map::new(alloc);
    put(&mut server, alloc, "name", name)?;
    let mut members = Map::new(alloc);
    put(&mut members, alloc, "capabilities", capabilities)?;
    put(&mut members, alloc, "serverInfo", Value::Object(server))?;
    Ok(Value::Object(members))
}

/// The name of the units that positions count (LSP 3.17, "PositionEncodingKind").
fn units_name(units: Units) -> &'static str
    ensures { result.now ≡ units_name units }
{
    match units {
        Units::Utf8 => "utf-8",
        Units::Utf16 => "utf-16",
        Units::Utf32 => "utf-32",
    }
}

fn capabilities_value(alloc: Global, units: Units) -> Result<Value, Memory>
    ensures { IfOk result (λ value. view value ≡ capabilities_json units) }
{
    let units = Value::try_from_str(alloc, units_name(units))?;
    let tokens = semantic_tokens_value(alloc)?;
    let sync = sync_value(alloc)?;
    let mut members = served(alloc)?;
    put(&mut members, alloc, "positionEncoding", units)?;
    put(&mut members, alloc, "semanticTokensProvider", tokens)?;
    put(&mut members, alloc, "textDocumentSync", sync)?;
    Ok(Value::Object(members))
}

/// The methods that are served without further options.
fn served(alloc: Global) -> Result<Map<String, Value>, Memory>
    ensures { IfOk result (λ members. members_view members.entries ≡ served_json) }
{
    let mut members = Map::new(alloc);
    put(&mut members, alloc, "codeActionProvider", Value::from(true))?;
    put(&mut members, alloc, "definitionProvider", Value::from(true))?;
    put(
        &mut members,
        alloc,
        "documentSymbolProvider",
        Value::from(true),
    )?;
    put(&mut members, alloc, "hoverProvider", Value::from(true))?;
    put(&mut members, alloc, "referencesProvider", Value::from(true))?;
    put(&mut members, alloc, "renameProvider", Value::from(true))?;
    Ok(members)
}

fn semantic_tokens_value(alloc: Global) -> Result<Value, Memory>
    ensures { IfOk result (λ value. view value ≡ semantic_tokens_json) }
{
    let legend = legend_value(alloc)?;
    let mut members = Map::new(alloc);
    put(&mut members, alloc, "full", Value::from(true))?;
    put(&mut members, alloc, "legend", legend)?;
    Ok(Value::Object(members))
}

fn sync_value(alloc: Global) -> Result<Value, Memory>
    ensures { IfOk result (λ value. view value ≡ sync_json) }
{
    let mut members = Map::new(alloc);
    put(&mut members, alloc, "change", Value::from(SYNC_INCREMENTAL))?;
    put(&mut members, alloc, "openClose", Value::from(true))?;
    Ok(Value::Object(members))
}
