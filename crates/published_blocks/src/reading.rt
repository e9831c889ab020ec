//! What is read of a text before a line.

ghost use Rattle.std.specs.Prelude.{◌≡◌, ◌^◌, ◌<◌, OnOk};
ghost use Rattle.std.specs.Str.{chars};
ghost use Rattle.published_blocks.specs.declared.line.Kind.TheVariants as kind;

use crate::run::{Gap, Run};
use std::alloc::{AllocError, Global};

// What is read of a text before a line.
#[derive(Drop)]
pub struct Reading {
    // The run that may go on.
    pub run: Run,
    // What stands behind its last line.
    pub gap: Gap,
    // Whether a form feed alone is the line before.
    pub behind_feed: bool,
}

impl Reading {
    ghost use Rattle.std.specs.Prelude.{true, false};
    ghost use Rattle.published_blocks.specs.declared.run.Gap.TheVariants.{Nothing, Page};
    ghost use Rattle.published_blocks.specs.Runs as spec;

    // Nothing.
    pub fn new(alloc: Global) -> Reading
        ensures { result ≡ spec.nothing_read }
    {
        Reading {
            run: Run::new(alloc, 0),
            gap: Gap::Blank,
            behind_feed: false,
        }
    }

    // A blank line comes.
    pub fn pass_blank(&mut self)
        ensures { self.new ≡ record { run = self.old.run; gap = spec.with_blank self.old.gap; behind_feed = false } }
    {
        self.gap = self.gap.with_blank();
        self.behind_feed = false;
    }

    // A line of a page break comes.
    pub fn pass_break(&mut self, is_feed_alone: bool)
        ensures { self.new ≡ record { run = self.old.run; gap = Page; behind_feed = is_feed_alone } }
    {
        self.gap = Gap::Page;
        self.behind_feed = is_feed_alone;
    }

    // Whether a line with words goes on with the run.
    pub fn goes_on(&self, line: &[u8]) -> bool
        ensures { result ≡ spec.run_goes_on self.now.gap self.now.run.lead line.now }
    {
        self.gap.is_passed(self.run.lead, line)
    }

    // The run has a line more, which begins at an offset.
    pub fn push_line(&mut self, begin: usize, line: &str) -> Result<(), AllocError>
        requires { begin < 2 ^ 63 }
        ensures { OnOk result (self.new ≡ record { run = spec.with_line begin (chars line.now) self.old.run; gap = Nothing; behind_feed = false }) }
    {
        self.run.push_line(begin, line)?;
        self.gap = Gap::Nothing;
        self.behind_feed = false;
        Ok(())
    }
}
