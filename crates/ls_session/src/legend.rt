//! What the numbers of semantic tokens stand for (LSP 3.17, "Semantic Tokens").
ghost use Rattle.std.specs.Prelude.{◌≡◌, map, IfOk};
ghost use Rattle.serde_json.specs.View.{view};
ghost use Rattle.ls_session.specs.Legend.{legend_json, modifiers_json, texts_json, types_json};

use serde_json::{Map, Value, put};
use std::alloc::{AllocError as Memory, Global};

/// `SemanticTokensLegend`.
pub(crate) fn legend_value(alloc: Global) -> Result<Value, Memory>
    ensures { IfOk result (λ value. view value ≡ legend_json) }
{
    let modifiers = modifiers_value(alloc)?;
    let types = types_value(alloc)?;
    let mut members = Map::new(alloc);
    put(&mut members, alloc, "tokenModifiers", modifiers)?;
    put(&mut members, alloc, "tokenTypes", types)?;
    Ok(Value::Object(members))
}

fn modifiers_value(alloc: Global) -> Result<Value, Memory>
    ensures { IfOk result (λ value. view value ≡ modifiers_json) }
{
    texts_value(alloc, &["definition", "defaultLibrary"])
}

fn types_value(alloc: Global) -> Result<Value, Memory>
    ensures { IfOk result (λ value. view value ≡ types_json) }
{
    texts_value(
        alloc,
        &["type", "string", "number", "operator", "comment", "macro"],
    )
}

fn texts_value(alloc: Global, texts: &[&str]) -> Result<Value, Memory>
    ensures { IfOk result (λ value. view value ≡ texts_json (map (λ text. text.now) texts.now)) }
{
    let mut list = Vec::new(alloc);
    for text in texts {
        list.push(Value::try_from_str(alloc, text)?)?;
    }
    Ok(Value::Array(list))
}
