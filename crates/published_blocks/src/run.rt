//! Runs of lines.

ghost use Rattle.std.specs.Prelude.{◌≡◌, ◌<◌, ◌^◌, OnOk, length};
ghost use Rattle.std.specs.Str.{chars};
ghost use Rattle.published_blocks.specs.Runs as spec;

use crate::line::{indent, is_content, is_head};
use origins::Gathered;
use std::alloc::{AllocError, Global};

// What the first line with content says of a run.
#[derive(Clone, Copy)]
pub enum Lead {
    // There is none yet.
    Unknown,
    // It doesn't begin as a rule does.
    Other,
    // It does, behind so many blanks.
    Rule(usize),
}

impl Lead {
    // What is known with a line more.
    pub fn with(self, line: &[u8]) -> Lead
        ensures { result ≡ spec.lead_with self line.now }
    {
        match self {
            Lead::Unknown if !is_content(line) => Lead::Unknown,
            Lead::Unknown if is_head(line) => Lead::Rule(indent(line)),
            Lead::Unknown => Lead::Other,
            known => known,
        }
    }
}

// What stands between the last line with words and the next one.
#[derive(Clone, Copy)]
pub enum Gap {
    // No line.
    Nothing,
    // Blank lines.
    Blank,
    // A page break, and perhaps blank lines.
    Page,
}

impl Gap {
    // With a blank line more.
    pub fn with_blank(self) -> Gap
        ensures { result ≡ spec.with_blank self }
    {
        match self {
            Gap::Page => Gap::Page,
            _ => Gap::Blank,
        }
    }

    // Whether a line with words behind it goes on with a run.
    pub fn is_passed(self, lead: Lead, line: &[u8]) -> bool
        ensures { result ≡ spec.run_goes_on self lead line.now }
    {
        match (self, lead) {
            (Gap::Nothing, _) => true,
            (Gap::Page, Lead::Rule(base)) => base < indent(line) && !is_head(line),
            _ => false,
        }
    }
}

// Lines that stand together.
#[derive(Drop)]
pub struct Run {
    // The offset at which the first line begins.
    pub begin: usize,
    // The offset at which the last line ends.
    pub end: usize,
    // What its first line with content says.
    pub lead: Lead,
    // The lines, each with LF.
    pub block: Gathered,
}

// How many characters a text has.
fn char_count(text: &str) -> usize
    ensures count { result ≡ length (chars text.now) }
    ensures small { result < 2 ^ 63 }
{
    if text.is_ascii() {
        return text.len();
    }
    text.chars().count()
}

impl Run {
    // No lines, at an offset.
    pub fn new(alloc: Global, begin: usize) -> Run
        ensures { result ≡ spec.no_run begin }
    {
        Run {
            begin,
            end: begin,
            lead: Lead::Unknown,
            block: Gathered::new(alloc),
        }
    }

    // The same, with the room of these lines.
    pub fn begin_anew(&mut self, begin: usize)
        ensures { self.new ≡ spec.no_run begin }
    {
        self.begin = begin;
        self.end = begin;
        self.lead = Lead::Unknown;
        self.block.clear();
    }

    // Adds a line, which begins at an offset.
    pub fn push_line(&mut self, begin: usize, line: &str) -> Result<(), AllocError>
        requires { begin < 2 ^ 63 }
        ensures { OnOk result (self.new ≡ spec.with_line begin (chars line.now) self.old) }
    {
        let end = begin + char_count(line);
        self.block.copy(line, begin)?;
        self.block.put('\n', end)?;
        self.lead = self.lead.with(line.as_bytes());
        self.end = end;
        Ok(())
    }
}
