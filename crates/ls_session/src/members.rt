//! Members that are moved out of a value, so that no text of a message is copied.
ghost use Rattle.std.specs.Prelude.{◌≡◌, ℕ, List, bytes_eq, false, option_and_then, option_map};
ghost use Rattle.serde_json.specs.Find.{as_str, get};
ghost use Rattle.serde_json.specs.View.{view};

use ls_lists::Text;
use serde_json::Value;

/// The text that a value is, which is moved.
fn text(value: Value) -> Option<Text>
    ensures { result ≡ as_str (view value) }
{
    match value {
        Value::String(text) => Some(Text::new(text)),
        _ => None,
    }
}

/// What a value has as the member of this name, which is moved, and what is left of the value.
pub fn split(value: Value, key: &str) -> (Option<Value>, Value)
    ensures member { option_map view result.0 ≡ get key.now (view value) }
    ensures others { (q : List ℕ) → bytes_eq key.now q ≡ false → get q (view result.1) ≡ get q (view value) }
{
    match value {
        Value::Object(mut members) => {
            let member = members.remove(key);
            (member, Value::Object(members))
        }
        other => (None, other),
    }
}

/// The member of this name, which is moved, where it is a text, and what is left of the value.
pub fn split_text(value: Value, key: &str) -> (Option<Text>, Value)
    ensures text { result.0 ≡ option_and_then as_str (get key.now (view value)) }
    ensures others { (q : List ℕ) → bytes_eq key.now q ≡ false → get q (view result.1) ≡ get q (view value) }
{
    let (member, others) = split(value, key);
    (member.and_then(text), others)
}
