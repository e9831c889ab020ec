//! The JSON of what is wrong or doubtful in a document (LSP 3.17, "Diagnostic").
ghost use Rattle.std.specs.Prelude.{◌≡◌, OnOk};
ghost use Rattle.serde_json.specs.Events.{SendsValue};
ghost use Rattle.ls_bodies.specs.Bodies.{diagnostics_json, draft_diagnostics_json, finding_json, severity_number};

use crate::positions::write_range;
use abnf_lint::Severity;
use ls_answers::{Diagnostic, DraftDiagnostic};
use ls_text::Range;
use serde::{Serialize, Serializer};

/// `Diagnostic[]`, of a grammar.
pub(crate) fn write_diagnostics<S: Serializer>(
    out: &mut S,
    diagnostics: &[Diagnostic],
) -> Result<(), S::Error>
    ensures { OnOk result (SendsValue (diagnostics_json diagnostics.now) (S.written out.old) (S.written out.new)) }
{
    out.begin_seq(Some(diagnostics.len()))?;
    for diagnostic in diagnostics {
        let (code, message) = (diagnostic.code, diagnostic.message.as_str());
        write_finding(out, code.text(), message, diagnostic.range, code.severity())?;
    }
    out.end_seq()
}

/// `Diagnostic[]`, of a draft.
pub(crate) fn write_draft_diagnostics<S: Serializer>(
    out: &mut S,
    diagnostics: &[DraftDiagnostic],
) -> Result<(), S::Error>
    ensures { OnOk result (SendsValue (draft_diagnostics_json diagnostics.now) (S.written out.old) (S.written out.new)) }
{
    out.begin_seq(Some(diagnostics.len()))?;
    for diagnostic in diagnostics {
        let (code, message) = (diagnostic.code, diagnostic.message.as_str());
        write_finding(out, code.text(), message, diagnostic.range, code.severity())?;
    }
    out.end_seq()
}

/// `Diagnostic`.
fn write_finding<S: Serializer>(
    out: &mut S,
    code: &str,
    message: &str,
    range: Range,
    severity: Severity,
) -> Result<(), S::Error>
    ensures { OnOk result (SendsValue (finding_json code.now message.now range severity) (S.written out.old) (S.written out.new)) }
{
    out.begin_map(Some(5))?;
    out.key("code")?;
    out.str(code)?;
    out.key("message")?;
    out.str(message)?;
    out.key("range")?;
    write_range(out, range)?;
    out.key("severity")?;
    severity_number(severity).serialize(out)?;
    out.key("source")?;
    out.str("abnf")?;
    out.end_map()
}

/// `DiagnosticSeverity`.
fn severity_number(severity: Severity) -> u32
    ensures { result ≡ severity_number severity }
{
    match severity {
        Severity::Error => 1,
        Severity::Warning => 2,
    }
}
