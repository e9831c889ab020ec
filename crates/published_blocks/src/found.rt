//! What is found in a published text.

ghost use Rattle.std.specs.Prelude.{◌≡◌, IfErr, IfOk, OnOk};
ghost use Rattle.origins.specs.Origins.{characters};
ghost use Rattle.rule_texts.specs.Rules.{AreCounted};
ghost use Rattle.published_blocks.specs.own.Reads.{AddsFound, IsNotCounted, IsRefusedRun};

use crate::run::{Lead, Run};
use ls_lists::List;
use ls_text::{Snapshot, TextFault};
use origins::{Gathered, Lack, Unread};
use rule_texts::Counts;
use std::alloc::{AllocError, Global};

/// What is found in a published text.
#[derive(Drop)]
pub struct Published {
    /// The grammar of all runs that are rules alone, one behind the other, with the offset of each character in the text.
    pub grammar: Gathered,
    /// The runs that begin as a rule does and are not all rules, each at its first line.
    pub unread: List<Unread>,
}

impl Published {
    ghost use Rattle.published_blocks.specs.Published as spec;

    // Nothing.
    pub(crate) fn new(alloc: Global) -> Published
        ensures { result ≡ spec.nothing_found }
    {
        Published {
            grammar: Gathered::new(alloc),
            unread: List::new(alloc),
        }
    }

    // Adds what is found in a run, by what its blocks are.
    fn add(&mut self, run: &Run, counts: Counts) -> Result<(), AllocError>
        ensures { OnOk result (self.new ≡ spec.found_with self.old (spec.published_by run.now counts)) }
    {
        if counts.are_rules_alone() {
            return self.grammar.add_block(&run.block, run.end);
        }
        self.unread.push(Unread {
            at: run.begin,
            lack: Lack::Faulty,
        })
    }
}

// What the blocks of a run are.
fn counts_of(alloc: Global, run: &Run) -> Result<Counts, TextFault>
    ensures counts { IfOk result (AreCounted (characters run.now.block)) }
    ensures fault { IfErr result (IsNotCounted run.now) }
{
    let content = String::from_str(alloc, run.block.as_str())?;
    match Snapshot::of_text(alloc, content) {
        Ok(text) => Ok(Counts::of(alloc, &text)?),
        Err(fault) => Err(fault),
    }
}

// Adds what is found in a run that has ended.
pub fn end_run(found: &mut Published, alloc: Global, run: &Run) -> Result<(), TextFault>
    ensures found { OnOk result (AddsFound run.now found.old found.new) }
    ensures fault { IfErr result (IsRefusedRun run.now) }
{
    let Lead::Rule(_) = run.lead else {
        return Ok(());
    };
    match counts_of(alloc, run) {
        Ok(counts) => Ok(found.add(run, counts)?),
        Err(fault) => Err(fault),
    }
}
