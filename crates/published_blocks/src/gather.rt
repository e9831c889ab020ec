//! The grammar of a published text, gathered.

ghost use Rattle.std.specs.Prelude.{◌≡◌, ◌+◌, ◌^◌, ◌<◌, IfErr, IfOk, OnOk};
ghost use Rattle.std.specs.Str.{chars};
ghost use Rattle.ls_text.specs.Lines.{line_ends};
ghost use Rattle.published_blocks.specs.Published as spec;
ghost use Rattle.published_blocks.specs.Runs.{read_behind, run_ended_by, line_start};
ghost use Rattle.published_blocks.specs.declared.line.Kind.TheVariants.{Words};
ghost use Rattle.published_blocks.specs.Lines.{line_kind};
ghost use Rattle.published_blocks.specs.own.Reads.{AddsRuns, RunsAreRefused};

use crate::found::{Published, end_run};
use crate::line::{Kind, is_feed_alone, kind_of};
use crate::reading::Reading;
use ls_text::{Encoding, Position, Snapshot, TextFault};
use std::alloc::Global;

// The offset at which a line begins.
fn start_of(text: &Snapshot, at: usize) -> usize
    requires { at < line_ends text.now + 1 }
    ensures start { result ≡ line_start text.now at }
    ensures small { result < 2 ^ 63 }
{
    let _count = text.char_count();
    let begin = Position {
        line: at as u32,
        character: 0,
    };
    text.offset_of(begin, Encoding::Utf32)
}

// Reads a line with words, which begins at an offset.
fn read_words(
    reading: &mut Reading,
    found: &mut Published,
    alloc: Global,
    line: &str,
    begin: usize,
) -> Result<(), TextFault>
    requires { begin < 2 ^ 63 }
    ensures reading { OnOk result (reading.new ≡ read_behind Words begin (chars line.now) reading.old) }
    ensures found { OnOk result (AddsRuns (run_ended_by Words (chars line.now) reading.old) found.old found.new) }
    ensures fault { IfErr result (RunsAreRefused (run_ended_by Words (chars line.now) reading.old)) }
{
    if !reading.goes_on(line.as_bytes()) {
        match end_run(found, alloc, &reading.run) {
            Ok(()) => reading.run.begin_anew(begin),
            Err(fault) => return Err(fault),
        }
    }
    reading.push_line(begin, line)?;
    Ok(())
}

// Reads a line, which begins at an offset.
fn read_line(
    reading: &mut Reading,
    found: &mut Published,
    alloc: Global,
    line: &str,
    begin: usize,
) -> Result<(), TextFault>
    requires { begin < 2 ^ 63 }
    ensures reading { OnOk result (reading.new ≡ read_behind (line_kind reading.old.behind_feed line.now) begin (chars line.now) reading.old) }
    ensures found { OnOk result (AddsRuns (run_ended_by (line_kind reading.old.behind_feed line.now) (chars line.now) reading.old) found.old found.new) }
    ensures fault { IfErr result (RunsAreRefused (run_ended_by (line_kind reading.old.behind_feed line.now) (chars line.now) reading.old)) }
{
    match kind_of(reading.behind_feed, line.as_bytes()) {
        Kind::Blank => {
            reading.pass_blank();
            Ok(())
        }
        Kind::Break => {
            reading.pass_break(is_feed_alone(line.as_bytes()));
            Ok(())
        }
        Kind::Words => read_words(reading, found, alloc, line, begin),
    }
}

/// The grammar in the text of a published RFC, and what looks like grammar and isn't taken.
///
/// A run of lines is taken where its first line with content begins with a name and `=`, and each of its blocks is a rule
/// (RFC 5234, sections 2.2 and 4). Blank lines end a run, and so do page breaks: footers that end in `[Page N]`, form
/// feeds, and the headers behind them. But behind a page break a run that begins with a rule goes on with a line that is
/// indented deeper than that rule and begins no other one. What is taken is left aligned, with LF at the end of each line
/// and another one at the end of each run. A run that begins so and isn't taken is [`Lack::Faulty`](origins::Lack), at the
/// offset of its first line, in characters. Time and memory go by the length of the text.
///
/// # Errors
///
/// `TooLarge` where such a run alone, with LF at the end of its last line, is larger than a text may be, and `Memory` where
/// an allocation is refused.
pub fn gather_published(alloc: Global, text: &Snapshot) -> Result<Published, TextFault>
    ensures found { IfOk result (λ found. spec.IsPublished text.now found) }
    ensures fault { IfErr result (spec.IsRefused text.now) }
{
    let mut found = Published::new(alloc);
    let mut reading = Reading::new(alloc);
    for at in 0..text.line_count() {
        if let Some(line) = text.line(at) {
            let begin = start_of(text, at);
            match read_line(&mut reading, &mut found, alloc, line, begin) {
                Ok(()) => {}
                Err(fault) => return Err(fault),
            }
        }
    }
    match end_run(&mut found, alloc, &reading.run) {
        Ok(()) => Ok(found),
        Err(fault) => Err(fault),
    }
}
