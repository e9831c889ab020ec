//! How many blocks of a text are rules.

ghost use Rattle.std.specs.Prelude.{◌≡◌, ◌<◌, All, IfOk, OnErr, Ok, count_by, false, length, true};
ghost use Rattle.rule_texts.specs.Rules as spec;

use abnf_syntax::{Block, SyntaxFault, blocks, check_block};
use ls_text::Snapshot;
use std::alloc::{AllocError, Global};

/// How many blocks a text has, and how many of them have a head or are rules.
#[derive(Clone, Copy, Debug, PartialEq, Eq)]
pub struct Counts {
    /// How many blocks there are.
    pub blocks: usize,
    /// How many of these have a head: a name, and `=` or `=/` behind it. Some of them may be faulty.
    pub heads: usize,
    /// How many of the blocks are rules.
    pub rules: usize,
}

/// Whether a block is a rule. Else it shows a fault.
fn is_rule(alloc: Global, block: &Block<'_>) -> Result<bool, AllocError>
    requires { 0 < length block.now.items }
    ensures rule { result ≡ Ok true → spec.IsRule block.now }
    ensures faulty { result ≡ Ok false → spec.IsFaulty block.now }
{
    match check_block(alloc, block) {
        Ok(()) => Ok(true),
        Err(fault) => match fault {
            SyntaxFault::Memory => Err(AllocError),
            _ => Ok(false),
        },
    }
}

/// How many of these blocks are rules.
fn count_rules(alloc: Global, blocks: &[Block<'_>]) -> Result<usize, AllocError>
    requires { All (λ block. 0 < length block.items) blocks.now }
    ensures rules { IfOk result (spec.AreRules blocks.now) }
    ensures memory { OnErr result (0 < length blocks.now) }
{
    let mut rules = 0usize;
    for block in blocks {
        if is_rule(alloc, block)? {
            rules += 1;
        }
    }
    Ok(rules)
}

/// Whether a block has a head.
fn has_head(block: &Block<'_>) -> bool
    ensures { result ≡ spec.has_head block.now }
{
    block.head().is_some()
}

/// How many of these blocks have a head.
fn count_heads(blocks: &[Block<'_>]) -> usize
    ensures { result ≡ count_by spec.has_head blocks.now }
{
    blocks.iter().filter(|block| has_head(block)).count()
}

impl Counts {
    ghost use Rattle.abnf_syntax.specs.Blocks.{HasBlock, line_texts};
    ghost use Rattle.rule_texts.specs.Rules as spec;

    /// Those of a text, in time by its bytes.
    ///
    /// # Errors
    ///
    /// Where an allocation is refused. A text without blocks needs no memory.
    pub fn of(alloc: Global, text: &Snapshot) -> Result<Counts, AllocError>
        ensures counted { IfOk result (spec.AreCounted text.now) }
        ensures memory { OnErr result (HasBlock (line_texts text.now)) }
    {
        let blocks = blocks(alloc, text)?;
        let rules = count_rules(alloc, blocks.as_slice())?;
        Ok(Counts {
            blocks: blocks.len(),
            heads: count_heads(blocks.as_slice()),
            rules,
        })
    }

    /// Whether the text is rules alone: it has a block, and each of its blocks is a rule.
    pub fn are_rules_alone(self) -> bool
        ensures { result ≡ spec.are_rules_alone self }
    {
        self.blocks > 0 && self.rules == self.blocks
    }

    /// Whether the text is no grammar: it has more than one block, none of them is a rule, and fewer than half of them have
    /// a head.
    pub fn is_no_grammar(self) -> bool
        ensures { result ≡ spec.is_no_grammar self }
    {
        self.rules == 0 && self.blocks > 1 && self.heads < self.blocks.saturating_sub(self.heads)
    }
}
