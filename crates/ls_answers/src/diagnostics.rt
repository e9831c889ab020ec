//! What is wrong or doubtful in a text, as a client is told.
ghost use Rattle.std.specs.Prelude.{◌≡◌, IfOk, map};
ghost use Rattle.std.specs.Arc.{arc_value};
ghost use Rattle.ls_answers.specs.Diagnostics.{AreDiagnostics, diagnostic_of};

use crate::answer::Diagnostic;
use abnf_lint::Finding;
use incremental_findings::{Diagnosed, Recent};
use ls_lists::List;
use ls_text::{Encoding, Ruler, Snapshot};
use std::alloc::{AllocError as Memory, Global};
use std::sync::Arc;

/// What is found in a text, in its order, by positions that count these units.
///
/// Where one of the texts that were diagnosed last is near to this one, only a part of this one is read. It is one of these then, unless
/// memory is refused.
///
/// `Memory` says that an allocation was refused.
pub fn diagnostics(
    alloc: Global,
    recent: &mut Recent,
    snapshot: &Arc<Snapshot>,
    encoding: Encoding,
) -> Result<List<Diagnostic>, Memory>
    ensures { IfOk result (λ diagnostics. AreDiagnostics encoding (arc_value snapshot.now) diagnostics) }
{
    let diagnosed = diagnosed(alloc, recent.take_near(snapshot), snapshot)?;
    let diagnostics = told(alloc, snapshot, encoding, diagnosed.findings());
    recent.keep(diagnosed);
    diagnostics
}

/// A text with what is found in it: by what is kept of a text near to it, or else by all of its blocks.
pub(crate) fn diagnosed(
    alloc: Global,
    near: Option<Diagnosed>,
    snapshot: &Arc<Snapshot>,
) -> Result<Diagnosed, Memory>
    ensures { IfOk result (λ diagnosed. diagnosed.text ≡ arc_value snapshot.now) }
{
    match near {
        Some(near) => near.followed(alloc, snapshot.clone()?),
        None => Diagnosed::of(alloc, snapshot.clone()?),
    }
}

/// Findings with their ranges and messages.
fn told(
    alloc: Global,
    snapshot: &Snapshot,
    encoding: Encoding,
    found: &[Finding],
) -> Result<List<Diagnostic>, Memory>
    ensures { IfOk result (λ diagnostics. diagnostics ≡ map (diagnostic_of encoding snapshot.now) found.now) }
{
    let mut ruler = Ruler::new(snapshot, encoding);
    let mut diagnostics = List::new(alloc);
    diagnostics.reserve(found.len())?;
    for finding in found {
        diagnostics.push(diagnostic(alloc, &mut ruler, finding)?)?;
    }
    Ok(diagnostics)
}

/// A finding with its range and its message.
fn diagnostic(alloc: Global, ruler: &mut Ruler<'_>, finding: &Finding) -> Result<Diagnostic, Memory>
    ensures text { ruler.new ≡ ruler.old }
    ensures told { IfOk result (λ diagnostic. diagnostic ≡ diagnostic_of ruler.old.encoding ruler.old.text finding.now) }
{
    let message = finding.message(alloc)?;
    Ok(Diagnostic {
        range: ruler.range_of(&finding.place),
        code: finding.code,
        message,
    })
}
