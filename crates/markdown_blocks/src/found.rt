//! What is found in a draft.

ghost use Rattle.std.specs.Prelude.{◌≡◌, ◌++◌, ◌∷◌, [], OnOk, if◌then◌else◌};
ghost use Rattle.std.specs.List.{list_all};
ghost use Rattle.std.specs.Str.{chars};
ghost use Rattle.origins.specs.declared.unread.Lack.TheVariants.{Empty};
ghost use Rattle.markdown_blocks.specs.Unread as spec;

use crate::beside::Beside;
use crate::fence::Fence;
use origins::{Aside, Gathered, Lack, Unread, is_blank, is_break};
use std::alloc::{AllocError, Global};
use std::marker::Model;

// What is found in a draft: the grammar of its blocks, or if they are asked for, the asides. Contracts see these three.
#[derive(Drop)]
pub struct Found {
    alloc: Global,
    wants_asides: bool,
    grammar: Gathered,
    asides: Vec<Aside>,
}

impl Model for Found {
    ghost use Rattle.markdown_blocks.specs.own.Reading.{Finds};

    ghost Value = { Finds };

    ghost view = { λ f. (f.wants_asides, f.grammar, f.asides.items) };
}

// Whether a character is white space.
fn is_white(c: char) -> bool
    ensures { result ≡ spec.is_white c }
{
    is_blank(c) || is_break(c)
}

// Whether only white space stands in a text.
fn are_white(text: &str) -> bool
    ensures { result ≡ list_all spec.is_white (chars text.now) }
{
    text.chars().all(|c| is_white(c))
}

// Adds an empty block that ends at an offset, if this says so.
fn put_empty(
    asides: &mut Vec<Aside>,
    alloc: Global,
    says: bool,
    end: usize,
) -> Result<(), AllocError>
    ensures { OnOk result (asides.new.items ≡ asides.old.items ++ (if says then record { unread = record { at = end; lack = Empty }; text = [] } ∷ [] else [])) }
{
    if says {
        asides.push(Aside {
            unread: Unread {
                at: end,
                lack: Lack::Empty,
            },
            text: Gathered::new(alloc),
        })?;
    }
    Ok(())
}

// Adds a block that nothing marks, which begins at an offset and ends at another one.
fn put_bare(
    asides: &mut Vec<Aside>,
    alloc: Global,
    at: usize,
    block: &Gathered,
    end: usize,
) -> Result<(), AllocError>
    ensures { OnOk result (asides.new.items ≡ asides.old.items ++ spec.bare_block at (record { content = block.now; end = end }) ∷ []) }
{
    let mut text = Gathered::new(alloc);
    text.add_block(block, end)?;
    asides.push(Aside {
        unread: Unread {
            at,
            lack: Lack::BareFence,
        },
        text,
    })?;
    Ok(())
}

// Adds what may have to be said of a block that ends at an offset.
fn put_asides(
    asides: &mut Vec<Aside>,
    alloc: Global,
    fence: Fence,
    beside: Beside,
    block: &Gathered,
    end: usize,
) -> Result<(), AllocError>
    ensures { OnOk result (asides.new.items ≡ asides.old.items ++ spec.block_asides (spec.block_ended fence beside block.now end)) }
{
    if fence.is_abnf {
        return put_empty(asides, alloc, are_white(block.as_str()), end);
    }
    if beside.is_bare {
        put_bare(asides, alloc, beside.at, block, end)?;
    }
    Ok(())
}

impl Found {
    ghost use Rattle.markdown_blocks.specs.own.Reading.{with_blocks};

    // Nothing. Asides may be asked for.
    pub fn new(alloc: Global, wants_asides: bool) -> Found
        ensures { result ≡ (wants_asides, [], []) }
    {
        Found {
            alloc,
            wants_asides,
            grammar: Gathered::new(alloc),
            asides: Vec::new(alloc),
        }
    }

    // What gives memory.
    pub fn alloc(&self) -> Global {
        self.alloc
    }

    // Adds a block that ends at an offset.
    pub fn end_block(
        &mut self,
        fence: Fence,
        beside: Beside,
        block: &Gathered,
        end: usize,
    ) -> Result<(), AllocError>
        ensures { OnOk result (self.new ≡ with_blocks self.old (spec.block_ended fence beside block.now end ∷ [])) }
    {
        if self.wants_asides {
            return put_asides(&mut self.asides, self.alloc, fence, beside, block, end);
        }
        if fence.is_abnf {
            self.grammar.add_block(block, end)?;
        }
        Ok(())
    }

    // The grammar alone.
    pub fn into_grammar(self) -> Gathered
        ensures { result ≡ self.1 }
    {
        self.grammar
    }

    // The asides alone.
    pub fn into_asides(self) -> Vec<Aside>
        ensures { result.items ≡ self.2 }
    {
        self.asides
    }
}
