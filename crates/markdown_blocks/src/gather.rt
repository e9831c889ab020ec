//! The blocks of a draft, gathered.
//!
//! A draft is read as one text, since a snapshot doesn't show which line end a line has. So it takes its size once more while it is read.
//! Prose is passed over, many lines at once where nothing in them may begin a fence, a comment or an attribute list, and a line that
//! can't close its block is copied in one piece. Any other line is read as a list of characters, four bytes each: where one of these may
//! begin, in a comment, and where a block may end.

ghost use Rattle.std.specs.Prelude.{◌≡◌, ℕ, ◌+◌, ◌<◌, ◌^◌, true, List, [], ◌∷◌, ◌++◌, IfOk, OnOk, length};
ghost use Rattle.std.specs.Str.{chars};
ghost use Rattle.origins.specs.Origins.{gathered_grammar};
ghost use Rattle.markdown_blocks.specs.Fences.{Line, behind_line, closes_fence, fence_content, first_says, markdown_blocks, says_abnf, without_end};
ghost use Rattle.markdown_blocks.specs.own.Reading.{first_line, with_blocks};
ghost use Rattle.markdown_blocks.specs.Unread.{all_blocks, begins_list, beside_behind, draft_blocks, first_lists, unread_blocks};

use crate::attributes::says_abnf;
use crate::beside::{Beside, NO_LIST, begins_list};
use crate::cut::{char_count, first_line};
use crate::fence::Fence;
use crate::found::Found;
use crate::front::{content, may_close, may_matter};
use crate::line::without_end;
use crate::prose::prose;
use crate::reading::Reading;
use ls_text::Snapshot;
use origins::{Aside, Gathered};
use std::alloc::{AllocError, Global};

// A line of a draft, with its line end.
#[derive(Clone, Copy)]
struct PlacedLine<'t> {
    text: &'t str,
    // The offset of its first character.
    at: usize,
}

// The characters of a text.
fn characters_of(alloc: Global, text: &str) -> Result<Vec<char>, AllocError>
    ensures { IfOk result (λ characters. characters.items ≡ chars text.now) }
{
    let characters: Vec<char> = text.chars().collect(alloc)?;
    Ok(characters)
}

// Adds a line of a block's content, many characters in one piece.
fn put_line(block: &mut Gathered, fence: Fence, line: PlacedLine<'_>) -> Result<(), AllocError>
    requires { line.at + length (chars line.text.now) < 2 ^ 64 }
    ensures { OnOk result (block.new ≡ block.old ++ fence_content fence (line.entry.at, chars line.entry.text.now)) }
{
    let (gone, content) = content(fence, line.text);
    block.copy(content, line.at + gone)
}

// Whether the first line of a text is an attribute list that says ABNF, and whether it is one at all.
fn first_list(alloc: Global, text: &str) -> Result<(bool, bool), AllocError>
    ensures { IfOk result (λ list. (list.0 ≡ says_abnf (first_line (chars text.now))) × (list.1 ≡ begins_list (first_line (chars text.now)))) }
{
    let (line, _) = first_line(text);
    let characters = characters_of(alloc, line)?;
    let line = without_end(characters.as_slice());
    Ok((says_abnf(line), begins_list(line)))
}

// Whether a line closes a block of this fence.
fn closes(alloc: Global, fence: Fence, line: &str) -> Result<bool, AllocError>
    ensures { IfOk result (λ closes. closes ≡ closes_fence fence (without_end (chars line.now))) }
{
    if !may_close(fence, line) {
        return Ok(false);
    }
    let characters = characters_of(alloc, line)?;
    Ok(fence.closes(without_end(characters.as_slice())))
}

// Reads a line of a block, before the rest of the text, and returns what is read then and known beside.
fn read_in_block(
    found: &mut Found,
    block: &mut Gathered,
    fence: Fence,
    beside: Beside,
    line: PlacedLine<'_>,
    behind: &str,
) -> Result<(Reading, Beside), AllocError>
    requires { line.at + length (chars line.text.now) < 2 ^ 64 }
    ensures { IfOk result (λ next. (end : ℕ) (ls : List Line) → first_says ls ≡ says_abnf (first_line (chars behind.now)) → first_lists ls ≡ begins_list (first_line (chars behind.now))
        → with_blocks found.new (all_blocks end next.0 next.1 block.new ls) ≡ with_blocks found.old (all_blocks end (Reading.Block fence) beside block.old ((line.entry.at, chars line.entry.text.now) ∷ ls))) }
{
    let closed = closes(found.alloc(), fence, line.text)?;
    if closed {
        let (says, stands) = first_list(found.alloc(), behind)?;
        found.end_block(
            fence.with_word(says),
            beside.with_list(stands),
            block,
            line.at,
        )?;
        block.clear();
        return Ok((Reading::BehindBlock, NO_LIST));
    }
    put_line(block, fence, line)?;
    Ok((Reading::Block(fence), beside))
}

// What is read behind a line that isn't in a block, and known beside.
fn behind_line(
    alloc: Global,
    reading: Reading,
    beside: Beside,
    line: PlacedLine<'_>,
) -> Result<(Reading, Beside), AllocError>
    requires { line.at + length (chars line.text.now) < 2 ^ 64 }
    ensures reading { IfOk result (λ next. next.0 ≡ behind_line reading (without_end (chars line.entry.text.now))) }
    ensures beside { IfOk result (λ next. next.1 ≡ beside_behind (behind_line reading (without_end (chars line.entry.text.now))) beside line.entry.at (without_end (chars line.entry.text.now))) }
{
    if !reading.goes_on() && !may_matter(line.text) {
        return Ok((Reading::Text, NO_LIST));
    }
    let characters = characters_of(alloc, line.text)?;
    let content = without_end(characters.as_slice());
    let next = reading.behind_line(content);
    Ok((next, beside.behind(next, line.at, content)))
}

// Reads a line before the rest of the text, and returns what is read then and known beside.
fn read_line(
    found: &mut Found,
    block: &mut Gathered,
    reading: Reading,
    beside: Beside,
    line: PlacedLine<'_>,
    behind: &str,
) -> Result<(Reading, Beside), AllocError>
    requires { line.at + length (chars line.text.now) < 2 ^ 64 }
    ensures { IfOk result (λ next. (end : ℕ) (ls : List Line) → first_says ls ≡ says_abnf (first_line (chars behind.now)) → first_lists ls ≡ begins_list (first_line (chars behind.now))
        → with_blocks found.new (all_blocks end next.0 next.1 block.new ls) ≡ with_blocks found.old (all_blocks end reading beside block.old ((line.entry.at, chars line.entry.text.now) ∷ ls))) }
{
    match reading {
        Reading::Block(fence) => read_in_block(found, block, fence, beside, line, behind),
        _ => {
            block.clear();
            Ok(behind_line(found.alloc(), reading, beside, line)?)
        }
    }
}

// Finds the grammar of a text, or the asides. Its characters may be known to be as many as its bytes.
fn gather(alloc: Global, wants_asides: bool, text: &str, even: bool) -> Result<Found, AllocError>
    requires small { length (chars text.now) < 2 ^ 63 }
    requires even { even ≡ true → length text.now ≡ length (chars text.now) }
    ensures { IfOk result (λ f. f ≡ with_blocks (wants_asides, [], []) (draft_blocks (chars text.now))) }
{
    let mut found = Found::new(alloc, wants_asides);
    let mut block = Gathered::new(alloc);
    let mut reading = Reading::Text;
    let mut beside = NO_LIST;
    let mut rest = text;
    let mut at = 0;
    'lines: while !rest.is_empty() {
        if reading.passes() {
            let (front, lines) = prose(rest);
            if !front.is_empty() {
                block.clear();
                reading = Reading::Text;
                beside = NO_LIST;
                at += char_count(front, even);
                rest = lines;
                continue 'lines;
            }
        }
        let (text, behind) = first_line(rest);
        let line = PlacedLine { text, at };
        (reading, beside) = read_line(&mut found, &mut block, reading, beside, line, behind)?;
        at += char_count(text, even);
        rest = behind;
    }
    if let Reading::Block(fence) = reading {
        found.end_block(fence, beside, &block, at)?;
    }
    Ok(found)
}

// Finds the same in a draft.
fn found_in(alloc: Global, wants_asides: bool, draft: &Snapshot) -> Result<Found, AllocError>
    ensures { IfOk result (λ f. f ≡ with_blocks (wants_asides, [], []) (draft_blocks draft.now)) }
{
    let text = draft.to_text()?;
    let even = text.len() == draft.char_count();
    gather(alloc, wants_asides, text.as_str(), even)
}

/// The grammar of all blocks of ABNF in a draft in Markdown, one behind the other, with the offset of each character in
/// the draft. A draft without blocks has an empty one.
///
/// A block's lines are there with their line ends, without the indentation of the fence and that of the block. Each block
/// has a line end more, which stands where the closing fence's line begins, or where the text ends. Time and memory go by
/// the length of the draft.
///
/// # Errors
///
/// Where an allocation is refused.
pub fn gather_markdown(alloc: Global, draft: &Snapshot) -> Result<Gathered, AllocError>
    ensures { IfOk result (λ g. g ≡ gathered_grammar (markdown_blocks draft.now)) }
{
    let found = found_in(alloc, false, draft)?;
    Ok(found.into_grammar())
}

/// What may have to be said of the blocks of a draft in Markdown, in its order.
///
/// Of a block of ABNF in which only white space stands there is no text, and the offset is that at which the closing fence's
/// line begins, or the text ends. A block without an info string, beside which no attribute list stands, is one of
/// [`BareFence`](origins::Lack::BareFence): its offset is that of the first mark of its fence, and its text is what a grammar
/// would have of it. Offsets count characters. Time and memory go by the length of the draft.
///
/// # Errors
///
/// Where an allocation is refused.
pub fn unread_blocks(alloc: Global, draft: &Snapshot) -> Result<Vec<Aside>, AllocError>
    ensures { IfOk result (λ asides. asides.items ≡ unread_blocks draft.now) }
{
    let found = found_in(alloc, true, draft)?;
    Ok(found.into_asides())
}
