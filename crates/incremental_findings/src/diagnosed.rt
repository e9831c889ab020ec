//! What is kept of a text that was diagnosed.

ghost use Rattle.std.specs.Prelude.{◌≡◌, IfOk};
ghost use Rattle.std.specs.Arc.{arc_value};
ghost use Rattle.abnf_syntax.specs.Blocks.{line_texts, IsTop};
ghost use Rattle.abnf_lint.specs.Rows.{AreRows};
ghost use Rattle.findings_index.specs.KeptBlocks.{IsKeptOf};

use crate::alike::Lines;
use crate::blocks::KeptBlocks;
use crate::difference::Change;
use abnf_lint::Finding;
use abnf_syntax::{Sheet, Top};
use ls_lists::List;
use ls_text::Snapshot;
use std::alloc::{AllocError, Global};
use std::marker::Model;
use std::sync::Arc;

/// A text, where its blocks begin, what is found in it, and what is kept of its blocks.
pub struct Diagnosed {
    snapshot: Arc<Snapshot>,
    /// The first line with content.
    top: Top,
    findings: List<Finding>,
    blocks: KeptBlocks,
}

// Not derived, so that what lets one go is proved without its fields.
impl Drop for Diagnosed {
    fn drop(self) {
        let Diagnosed {
            snapshot: _,
            top: _,
            findings: _,
            blocks: _,
        } = self;
    }
}

impl Model for Diagnosed {
    ghost use Rattle.std.specs.Arc.{arc_value};
    ghost use Rattle.abnf_syntax.specs.Blocks.{line_texts, IsTop};
    ghost use Rattle.abnf_lint.specs.Rows.{AreRows};
    ghost use Rattle.findings_index.specs.KeptBlocks.{IsKeptOf};
    ghost use Rattle.incremental_findings.specs.Known.{Known};

    ghost Value = { Known };

    ghost view = { λ d. record { text = arc_value d.snapshot; findings = d.findings } };

    ghost invariant = { λ d.
        AreRows (arc_value d.snapshot) d.findings × IsKeptOf (line_texts (arc_value d.snapshot)) d.blocks
        × IsTop (line_texts (arc_value d.snapshot)) d.top.line d.top.indent };
}

impl Diagnosed {
    /// A text, all of whose blocks are read, and what is found in it.
    ///
    /// # Errors
    ///
    /// Where an allocation is refused.
    pub fn of(alloc: Global, snapshot: Arc<Snapshot>) -> Result<Diagnosed, AllocError>
        ensures { IfOk result (λ diagnosed. diagnosed.text ≡ arc_value snapshot) }
    {
        let sheet = Sheet::of(&snapshot);
        let top = sheet.top();
        let blocks = KeptBlocks::of(alloc, &sheet)?;
        with_blocks(alloc, snapshot, top, blocks)
    }

    /// The text.
    pub fn snapshot(&self) -> &Snapshot
        ensures { result.now ≡ self.now.text }
    {
        &self.snapshot
    }

    /// What is found in the text.
    pub fn findings(&self) -> &[Finding]
        ensures value { result.now ≡ self.now.findings }
        ensures rows { AreRows self.now.text result.now }
    {
        self.findings.as_slice()
    }

    /// Another text, and what is found in it. Of a text that differs from this one in a part, the part's blocks are read alone, unless so
    /// many names are new there that all are better read anew. Where the part says the same of blocks, what is found moves with its lines.
    ///
    /// # Errors
    ///
    /// Where an allocation is refused.
    pub fn followed(self, alloc: Global, snapshot: Arc<Snapshot>) -> Result<Diagnosed, AllocError>
        ensures { IfOk result (λ diagnosed. diagnosed.text ≡ arc_value snapshot) }
    {
        let Diagnosed {
            snapshot: before,
            top,
            findings,
            blocks,
        } = self;
        let ours = Sheet::with_top(&before, top);
        let theirs = ours.followed(&snapshot);
        let top = theirs.top();
        let Some(change) = Change::between(&ours, &theirs, blocks.blocks()) else {
            return Diagnosed::of(alloc, snapshot);
        };
        let part = change.blocks;
        let moves = part.is_clean(findings.as_slice())
            && change.lines.say_the_same(
                &ours,
                Lines {
                    from: part.front,
                    to: part.old,
                },
                &theirs,
                Lines {
                    from: part.front,
                    to: part.new,
                },
            );
        let blocks = blocks.followed(alloc, &ours, &theirs, &change)?;
        if moves {
            return Ok(Diagnosed {
                findings: part.moved(findings),
                snapshot,
                top,
                blocks,
            });
        }
        with_blocks(alloc, snapshot, top, blocks)
    }
}

/// A text with what is kept of its blocks, and what these say to be found in it.
fn with_blocks(
    alloc: Global,
    snapshot: Arc<Snapshot>,
    top: Top,
    blocks: KeptBlocks,
) -> Result<Diagnosed, AllocError>
    requires top { IsTop (line_texts (arc_value snapshot)) top.line top.indent }
    requires blocks { IsKeptOf (line_texts (arc_value snapshot)) blocks }
    ensures { IfOk result (λ diagnosed. diagnosed.text ≡ arc_value snapshot) }
{
    let findings = blocks.findings(alloc, &Sheet::with_top(&snapshot, top))?;
    Ok(Diagnosed {
        snapshot,
        top,
        findings,
        blocks,
    })
}
