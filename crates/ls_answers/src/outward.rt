//! Answers about the grammar of a draft, carried to the draft.

ghost use Rattle.std.specs.Prelude.{◌≡◌, IfOk, map, option_map};
ghost use Rattle.draft_grammars.specs.Places.{outward_range};
ghost use Rattle.ls_answers.specs.InDrafts as spec;

use crate::answer::{Answer, DraftAnswer, HoverText, Insertion, Symbol};
use draft_grammars::{Format, SourceMap, inserted_lines, renamed_ranges};
use ls_lists::{List, Text};
use ls_text::Range;
use std::alloc::{AllocError as Memory, Global};

fn carry_symbols(symbols: &mut [Symbol], places: &SourceMap<'_>)
    ensures { symbols.new ≡ map (spec.outward_symbol places.now) symbols.old }
{
    for symbol in symbols.iter_mut() {
        symbol.range = places.outward_range(symbol.range);
        symbol.name_range = places.outward_range(symbol.name_range);
    }
}

fn outward_ranges(ranges: List<Range>, places: &SourceMap<'_>) -> List<Range>
    ensures { result ≡ map (outward_range places.now) ranges }
{
    let mut ranges = ranges.into_vec();
    places.carry_ranges(&mut ranges);
    List::from_vec(ranges)
}

fn outward_symbols(symbols: List<Symbol>, places: &SourceMap<'_>) -> List<Symbol>
    ensures { result ≡ map (spec.outward_symbol places.now) symbols }
{
    let mut symbols = symbols.into_vec();
    carry_symbols(&mut symbols, places);
    List::from_vec(symbols)
}

fn outward_hover(hover: HoverText, places: &SourceMap<'_>) -> HoverText
    ensures { result ≡ spec.outward_hover places.now hover }
{
    let HoverText {
        range,
        text,
        example,
    } = hover;
    HoverText {
        range: places.outward_range(range),
        text,
        example,
    }
}

fn outward_insertion(
    alloc: Global,
    format: Format,
    insertion: Insertion,
    places: &SourceMap<'_>,
) -> Result<Option<Insertion>, Memory>
    ensures { IfOk result (λ given. given ≡ spec.outward_insertion format places.now insertion) }
{
    let Insertion {
        position,
        text,
        cert,
    } = insertion;
    match inserted_lines(alloc, format, places, position, &text)? {
        Some(placed) => Ok(Some(Insertion {
            position: placed.position,
            text: placed.text,
            cert,
        })),
        None => Ok(None),
    }
}

fn outward_action(
    alloc: Global,
    format: Format,
    insertion: Option<Insertion>,
    places: &SourceMap<'_>,
) -> Result<Option<Insertion>, Memory>
    ensures { IfOk result (λ given. given ≡ spec.outward_action format places.now insertion) }
{
    match insertion {
        Some(insertion) => outward_insertion(alloc, format, insertion, places),
        None => Ok(None),
    }
}

/// The edits of a rename, or why it isn't granted.
fn outward_edits(
    alloc: Global,
    format: Format,
    ranges: List<Range>,
    new: Text,
    places: &SourceMap<'_>,
) -> Result<Answer, Memory>
    ensures { IfOk result (λ given. given ≡ spec.outward_edits format places.now ranges new) }
{
    match renamed_ranges(alloc, format, places, ranges, &new)? {
        Ok(ranges) => Ok(Answer::Edits(ranges, new)),
        Err(fault) => Ok(Answer::Draft(DraftAnswer::Refused(fault))),
    }
}

/// An answer about the grammar of a draft, in the draft.
pub(crate) fn outward_answer(
    alloc: Global,
    format: Format,
    answer: Answer,
    places: &SourceMap<'_>,
) -> Result<Answer, Memory>
    ensures { IfOk result (λ given. given ≡ spec.outward_answer format places.now answer) }
{
    match answer {
        Answer::Hover(Some(hover)) => Ok(Answer::Hover(Some(outward_hover(hover, places)))),
        Answer::Hover(None) => Ok(Answer::Hover(None)),
        Answer::Places(ranges) => Ok(Answer::Places(outward_ranges(ranges, places))),
        Answer::Symbols(symbols) => Ok(Answer::Symbols(outward_symbols(symbols, places))),
        Answer::Edits(ranges, new) => outward_edits(alloc, format, ranges, new, places),
        Answer::Refused(fault) => Ok(Answer::Refused(fault)),
        Answer::Insert(insertion) => {
            Ok(Answer::Insert(outward_action(alloc, format, insertion, places)?))
        }
        Answer::Numbers(numbers) => Ok(Answer::Numbers(numbers)),
        Answer::Findings(found) => Ok(Answer::Findings(found)),
        Answer::Draft(given) => Ok(Answer::Draft(given)),
    }
}
