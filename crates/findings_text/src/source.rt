//! Where the text of a grammar comes from, which definitions it repeats, and what of its file can't be read.

ghost use Rattle.std.specs.Prelude.{◌≡◌, IfOk};
ghost use Rattle.ls_text.specs.declared.position.Encoding.TheVariants.{Utf32};
ghost use Rattle.draft_findings.specs.Reports.{reported};
ghost use Rattle.findings_text.specs.Gaps.{hint_behind};
ghost use Rattle.findings_text.specs.Print.{original_line, position_at};
ghost use Rattle.findings_text.specs.Sources as spec;

use crate::gaps::{Kept, hint_behind};
use abnf_lint::Finding;
use draft_findings::{Remark, Reported, reported};
use joined_grammars::Repeats;
use ls_lists::List;
use ls_text::{Encoding, Place, Position, Ruler, Snapshot};
use origins::{Gathered, Unread};
use std::alloc::{AllocError as Memory, Global};

/// Where the text of a grammar comes from.
#[derive(Clone, Copy)]
pub enum Source<'a> {
    /// It is that of the file.
    File,
    /// It begins with what was gathered from a draft, in which these definitions repeat others, whose blocks end in front of these
    /// lines, and of which this can't be read, in the draft's order.
    Draft(&'a Snapshot, &'a Gathered, &'a Repeats, &'a [usize], &'a [Unread]),
}

/// Where in a draft stands what has this position in a text that begins with the draft's grammar. Positions count characters.
fn position_in_draft(
    draft: &Snapshot,
    grammar: &Gathered,
    text: &Snapshot,
    at: Position,
) -> Position
    ensures { result ≡ spec.position_in_draft draft.now grammar.now text.now at }
{
    let origin = match grammar.origin_of(text.offset_of(at, Encoding::Utf32)) {
        Some(origin) => origin,
        None => draft.char_count(),
    };
    draft.position_of(origin, Encoding::Utf32)
}

/// Where in the file stands what has this position in the text of a grammar. Positions count characters.
pub(crate) fn located(source: Source<'_>, text: &Snapshot, at: Position) -> Position
    ensures { result ≡ spec.located source.entry text.now at }
{
    match source {
        Source::File => at,
        Source::Draft(draft, grammar, _, _, _) => position_in_draft(draft, grammar, text, at),
    }
}

/// What of the findings of a text is reported: in a draft neither copies nor what many faults of a block lead to.
pub(crate) fn reported_in<'f>(
    alloc: Global,
    source: Source<'_>,
    found: &'f [Finding],
) -> Result<List<Reported<'f>>, Memory>
    ensures { IfOk result (λ list. list ≡ reported (spec.repeats_in source.entry) (spec.ends_in source.entry) found.entry.now) }
{
    match source {
        Source::File => reported(alloc, found, &Repeats::none(alloc), &[]),
        Source::Draft(_, _, repeats, ends, _) => reported(alloc, found, repeats, ends),
    }
}

/// Where in the file stands what begins at a place of the text of a grammar.
fn located_at(source: Source<'_>, text: &Snapshot, ruler: &mut Ruler<'_>, place: &Place) -> Position
    requires { ruler.old ≡ record { text = text.now; encoding = Utf32 } }
    ensures same { ruler.new ≡ ruler.old }
    ensures position { result ≡ spec.located source.entry text.now (position_at text.now place.now) }
{
    let begin = ruler.range_of(place).start;
    located(source, text, begin)
}

/// The line in the file, from 0, of the first definition, where what is said of a finding is that its definition differs from that.
fn original_line(
    source: Source<'_>,
    text: &Snapshot,
    ruler: &mut Ruler<'_>,
    remark: Remark,
) -> Option<u32>
    requires { ruler.old ≡ record { text = text.now; encoding = Utf32 } }
    ensures same { ruler.new ≡ ruler.old }
    ensures line { result ≡ original_line (spec.located source.entry text.now) text.now remark }
{
    match remark {
        Remark::Differs(line) => {
            let front = Place {
                line,
                start: 0,
                end: 0,
            };
            Some(located_at(source, text, ruler, &front).line)
        }
        Remark::Plain | Remark::FirstOf(_) => None,
    }
}

/// Where a finding stands in its file.
#[derive(Clone, Copy)]
pub(crate) struct Standing {
    /// Where it begins.
    pub(crate) begin: Position,
    /// The line of the first definition, from 0, where the finding's differs from it.
    pub(crate) original: Option<u32>,
    /// What is said behind its message.
    pub(crate) hint: &'static str,
}

/// Where a finding that is reported stands in its file.
pub(crate) fn standing_of(
    source: Source<'_>,
    text: &Snapshot,
    ruler: &mut Ruler<'_>,
    kept: &Option<Kept>,
    reported: &Reported<'_>,
) -> Standing
    requires { ruler.old ≡ record { text = text.now; encoding = Utf32 } }
    ensures same { ruler.new ≡ ruler.old }
    ensures begin { result.begin ≡ spec.located source.entry text.now (position_at text.now reported.now.finding.place) }
    ensures original { result.original ≡ original_line (spec.located source.entry text.now) text.now reported.now.remark }
    ensures hint { result.hint.now ≡ hint_behind kept.now text.now reported.now.finding }
{
    let finding = reported.finding();
    let begin = located_at(source, text, ruler, &finding.place);
    let original = original_line(source, text, ruler, reported.remark());
    Standing {
        begin,
        original,
        hint: hint_behind(kept, text, finding),
    }
}
