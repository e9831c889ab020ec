//! The JSON of semantic tokens (LSP 3.17, "Semantic Tokens").
ghost use Rattle.std.specs.Prelude.{map, OnOk};
ghost use Rattle.serde_json.specs.Data.{array};
ghost use Rattle.serde_json.specs.Events.{SendsValue};
ghost use Rattle.serde_json.specs.View.{items_of};
ghost use Rattle.ls_bodies.specs.Tokens.{count_json, tokens_json};

use serde::{Serialize, Serializer};

/// `SemanticTokens`.
pub(crate) fn write_tokens<S: Serializer>(out: &mut S, numbers: &[u32]) -> Result<(), S::Error>
    ensures { OnOk result (SendsValue (tokens_json numbers.now) (S.written out.old) (S.written out.new)) }
{
    out.begin_map(Some(1))?;
    out.key("data")?;
    write_numbers(out, numbers)?;
    out.end_map()
}

fn write_numbers<S: Serializer>(out: &mut S, numbers: &[u32]) -> Result<(), S::Error>
    ensures { OnOk result (SendsValue (array (items_of (map count_json numbers.now))) (S.written out.old) (S.written out.new)) }
{
    out.begin_seq(Some(numbers.len()))?;
    for number in numbers {
        number.serialize(out)?;
    }
    out.end_seq()
}
