//! The classes of the tokens of a text.
//!
//! The marks of all lines and the places of names are walked side by side, so that no token looks for its place: places ascend
//! (`places_ascend` in `abnf_names`).
ghost use Rattle.std.specs.Prelude.{◌≡◌, ◌≤◌, ◌++◌, [], IfOk, OnOk, drop, length, map, option_map, slice_index_or};
ghost use Rattle.abnf_names.specs.Places.{begins_before, named_at};
ghost use Rattle.abnf_names.specs.Rules.{IsGrammar};
ghost use Rattle.abnf_parts.specs.Names.{folded_text};
ghost use Rattle.abnf_syntax.specs.Blocks.{line_texts};
ghost use Rattle.abnf_token.specs.Marks.{AreMarks};
ghost use Rattle.ls_answers.specs.SemanticTokens as spec;
ghost use Rattle.ls_answers.specs.own.Walk as walk;

use abnf_names::{Grammar, Spot};
use abnf_token::{Folded, Kind, TokenMark};
use ls_lists::List;
use ls_text::{Encoding, Place, Position, Range, Ruler, Snapshot};
use std::alloc::{AllocError as Memory, Global};

/// The modifier of a place that defines its name.
const DEFINITION: u32 = 1;

/// The modifier of a use that stands for a core rule.
const DEFAULT_LIBRARY: u32 = 2;

/// What is reported of a token.
#[derive(Clone, Copy, Debug, PartialEq, Eq)]
pub struct SemanticToken {
    /// Where it stands.
    pub range: Range,
    /// The number of its type in the legend.
    pub kind: u32,
    /// The sum of its modifiers.
    pub modifiers: u32,
}

/// Five numbers for each token of a text, in its order: how many lines it stands below the token before, how far behind that one in
/// the same line or else behind the line's start, its length, its type and its modifiers. Starts and lengths count the units of the
/// encoding.
///
/// # Errors
///
/// Where an allocation is refused.
pub fn semantic_tokens(
    alloc: Global,
    grammar: &Grammar,
    encoding: Encoding,
) -> Result<List<u32>, Memory>
    ensures { IfOk result (λ numbers. spec.AreSemanticTokens encoding grammar.now.text numbers) }
{
    let tokens = told(alloc, grammar, encoding)?;
    relative(alloc, tokens.as_slice())
}

/// The tokens of a text that are reported, in its order.
///
/// # Errors
///
/// Where an allocation is refused.
pub(crate) fn reported(
    alloc: Global,
    grammar: &Grammar,
    encoding: Encoding,
) -> Result<List<SemanticToken>, Memory>
    ensures { IfOk result (λ tokens. spec.AreReported encoding grammar.now.text tokens) }
{
    told(alloc, grammar, encoding)
}

/// The numbers of tokens.
pub(crate) fn relative(alloc: Global, tokens: &[SemanticToken]) -> Result<List<u32>, Memory>
    ensures { IfOk result (λ numbers. numbers ≡ spec.relative spec.origin tokens.now) }
{
    let mut numbers = Vec::new(alloc);
    let mut before = Position {
        line: 0,
        character: 0,
    };
    for token in tokens {
        push_numbers(&mut numbers, before, *token)?;
        before = token.range.start;
    }
    Ok(List::from_vec(numbers))
}

/// Adds the numbers of a token behind the start of the token before.
fn push_numbers(
    numbers: &mut Vec<u32>,
    before: Position,
    token: SemanticToken,
) -> Result<(), Memory>
    ensures { OnOk result (numbers.new.items ≡ numbers.old.items ++ spec.numbers_of before token) }
{
    let start = token.range.start;
    let behind = if start.line == before.line {
        start.character.saturating_sub(before.character)
    } else {
        start.character
    };
    let length = token.range.end.character.saturating_sub(start.character);
    numbers.push(start.line.saturating_sub(before.line))?;
    numbers.push(behind)?;
    numbers.push(length)?;
    numbers.push(token.kind)?;
    numbers.push(token.modifiers)?;
    Ok(())
}

/// What is reported of the tokens of a text.
fn told(alloc: Global, grammar: &Grammar, encoding: Encoding) -> Result<List<SemanticToken>, Memory>
    ensures told { IfOk result (λ tokens. walk.AreToldTokens encoding grammar.now tokens) }
    ensures grammar { IsGrammar grammar.now }
{
    let snapshot = grammar.source();
    let spots = grammar.spots();
    let mut ruler = Ruler::new(snapshot, encoding);
    let mut tokens = List::new(alloc);
    let mut passed = 0;
    for line in 0..snapshot.line_count() {
        let marked = MarkedLine {
            line,
            marks: marks_at(snapshot, line),
        };
        passed = push_line(&mut tokens, grammar, &mut ruler, spots, passed, &marked)?;
    }
    Ok(tokens)
}

/// A line, by its number, and the marks of its tokens.
#[derive(Clone, Copy)]
struct MarkedLine<'m> {
    line: usize,
    marks: &'m [TokenMark],
}

/// The marks of a line, none behind the last line.
fn marks_at(snapshot: &Snapshot, line: usize) -> &[TokenMark]
    ensures { AreMarks (slice_index_or (line_texts snapshot.now) line []) result.now }
{
    match snapshot.marks(line) {
        Some(marks) => marks,
        None => &[],
    }
}

/// Adds what is reported of the tokens of a line, where so many of the places have been passed, and gives how many have been behind it.
fn push_line(
    tokens: &mut List<SemanticToken>,
    grammar: &Grammar,
    ruler: &mut Ruler<'_>,
    spots: &[Spot<'_>],
    passed: usize,
    marked: &MarkedLine<'_>,
) -> Result<usize, Memory>
    requires text { ruler.old.text ≡ grammar.now.text }
    requires within { passed ≤ length spots.now }
    ensures text { ruler.new ≡ ruler.old }
    ensures within { IfOk result (λ now. now ≤ length spots.now) }
    ensures left { IfOk result (λ now. map named_at (drop now spots.now) ≡ walk.left_behind marked.now.line marked.now.marks.now (map named_at (drop passed spots.now))) }
    ensures told { OnOk result (tokens.new ≡ tokens.old ++ walk.told_in_line ruler.old.encoding grammar.now marked.now.line marked.now.marks.now (map named_at (drop passed spots.now))) }
{
    let mut now = passed;
    for mark in marked.marks {
        now = passed_at(spots, now, marked.line, mark.start as usize);
        if let Some(token) = told_of(grammar, ruler, &spots[now..], marked.line, mark) {
            tokens.push(token)?;
        }
    }
    Ok(now)
}

/// How many of the places have been passed at a byte of a line, where so many have been before it: those that begin before it.
fn passed_at(spots: &[Spot<'_>], passed: usize, line: usize, start: usize) -> usize
    requires { passed ≤ length spots.now }
    ensures within { result ≤ length spots.now }
    ensures left { map named_at (drop result spots.now) ≡ walk.from_point line start (map named_at (drop passed spots.now)) }
{
    let mut now = passed;
    'passing: while now < spots.len() && begins_before(&spots[now], line, start) {
        now += 1;
    }
    now
}

/// Whether a place begins before a byte of a line.
fn begins_before(spot: &Spot<'_>, line: usize, start: usize) -> bool
    ensures { result ≡ begins_before line start (named_at spot.now) }
{
    spot.place.line < line || (spot.place.line == line && spot.place.start < start)
}

/// What is reported of the token with this mark, where these places are left.
fn told_of(
    grammar: &Grammar,
    ruler: &mut Ruler<'_>,
    left: &[Spot<'_>],
    line: usize,
    mark: &TokenMark,
) -> Option<SemanticToken>
    requires { ruler.old.text ≡ grammar.now.text }
    ensures text { ruler.new ≡ ruler.old }
    ensures told { result ≡ spec.told_of ruler.old.encoding grammar.now line mark.now (walk.first_at line mark.now.start (map named_at left.now)) }
{
    let kind = type_of(mark.kind)?;
    let start = mark.start as usize;
    let place = Place {
        line,
        start,
        end: mark.end as usize,
    };
    Some(SemanticToken {
        range: ruler.range_of(&place),
        kind,
        modifiers: modifiers_of(grammar, mark.kind, first_at(left, line, start)),
    })
}

/// The number of a token's type in the legend. None of a blank or a bad token, which isn't reported.
fn type_of(kind: Kind) -> Option<u32>
    ensures { result ≡ spec.type_of kind }
{
    match kind {
        Kind::Name => Some(0),
        Kind::Quoted => Some(1),
        Kind::Number => Some(2),
        Kind::Defines
        | Kind::Adds
        | Kind::Slash
        | Kind::Repeat
        | Kind::ParenL
        | Kind::ParenR
        | Kind::BracketL
        | Kind::BracketR => Some(3),
        Kind::Comment => Some(4),
        Kind::Prose => Some(5),
        Kind::Blank | Kind::Bad => None,
    }
}

/// The first of the places, if it stands there.
fn first_at<'g, 't>(left: &'g [Spot<'t>], line: usize, start: usize) -> Option<&'g Spot<'t>>
    ensures { option_map (λ spot. named_at spot.now) result ≡ walk.first_at line start (map named_at left.entry.now) }
{
    match left {
        [first, ..] => {
            if first.place.line == line && first.place.start == start {
                Some(first)
            } else {
                None
            }
        }
        [] => None,
    }
}

/// The modifiers of a token by the place of a name that it is, if it is one.
fn modifiers_of(grammar: &Grammar, kind: Kind, found: Option<&Spot<'_>>) -> u32
    ensures { result ≡ spec.modifiers_of grammar.now kind (option_map (λ spot. named_at spot.now) found.entry) }
{
    match (kind, found) {
        (Kind::Name, Some(spot)) => place_modifiers(grammar, spot),
        _ => 0,
    }
}

/// The modifiers of the place of a name.
fn place_modifiers(grammar: &Grammar, spot: &Spot<'_>) -> u32
    ensures { result ≡ spec.place_modifiers grammar.now (named_at spot.now) }
{
    if spot.defines {
        DEFINITION
    } else if stands_for_core(grammar, spot.name) {
        DEFAULT_LIBRARY
    } else {
        0
    }
}

/// Whether a name stands for a core rule.
fn stands_for_core(grammar: &Grammar, name: Folded<'_>) -> bool
    ensures { result ≡ spec.stands_for_core grammar.now (folded_text name.entry) }
{
    grammar.own_rule_of(name).is_none() && grammar.rule_of(name).is_some()
}
