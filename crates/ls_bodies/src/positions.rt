//! The JSON of positions and ranges (LSP 3.17, "Position" and "Range").
ghost use Rattle.std.specs.Prelude.{OnOk};
ghost use Rattle.serde_json.specs.Events.{SendsValue};
ghost use Rattle.ls_bodies.specs.Positions.{position_json, range_json};

use ls_text::{Position, Range};
use serde::{Serialize, Serializer};

pub(crate) fn write_range<S: Serializer>(out: &mut S, range: Range) -> Result<(), S::Error>
    ensures { OnOk result (SendsValue (range_json range) (S.written out.old) (S.written out.new)) }
{
    out.begin_map(Some(2))?;
    out.key("end")?;
    write_position(out, range.end)?;
    out.key("start")?;
    write_position(out, range.start)?;
    out.end_map()
}

fn write_position<S: Serializer>(out: &mut S, position: Position) -> Result<(), S::Error>
    ensures { OnOk result (SendsValue (position_json position) (S.written out.old) (S.written out.new)) }
{
    out.begin_map(Some(2))?;
    out.key("character")?;
    position.character.serialize(out)?;
    out.key("line")?;
    position.line.serialize(out)?;
    out.end_map()
}
