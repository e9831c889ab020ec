//! What is printed of a draft in RFCXML that is at fault.

ghost use Rattle.std.specs.Prelude.{IfOk};
ghost use Rattle.findings_files.specs.Formats as spec;

use findings_text::{Outcome, Printed, place_text};
use ls_lists::Text;
use ls_text::{Encoding, Snapshot};
use std::alloc::{AllocError as Memory, Global};
use xml_blocks::XmlFault;

/// What is printed of a draft that is at fault.
pub(crate) fn print_fault(
    alloc: Global,
    file: &str,
    draft: &Snapshot,
    fault: XmlFault,
) -> Result<Printed, Memory>
    ensures { IfOk result (λ printed. spec.IsPrintedFault file.now draft.now fault printed) }
{
    let place = place_text(alloc, draft.position_of(fault.offset(), Encoding::Utf32))?;
    let mut lines = String::from_str(alloc, file)?;
    lines.push_str(place.as_str())?;
    lines.push_str("error: ")?;
    lines.push_str(fault.words())?;
    lines.push_str(" [xml]\n")?;
    Ok(Printed {
        lines: Text::new(lines),
        outcome: Outcome::Errors,
    })
}
