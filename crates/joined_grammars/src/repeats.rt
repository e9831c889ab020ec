//! The definitions that a text repeats.

ghost use Rattle.std.specs.Prelude.{◌≡◌, ◌<◌, ◌++◌, ◌∷◌, List as Listed, [], All, IfOk, OnErr, OnOk, length, map, option_map, slice_get};
ghost use Rattle.std.specs.Option.{option_and_then};
ghost use Rattle.std.specs.List.Sorted.{IsNonDecreasingBy};
ghost use Rattle.abnf_parts.specs.Names.{folded_text, rule_number};
ghost use Rattle.joined_grammars.specs.Repeats as spec;
ghost use Rattle.joined_grammars.specs.own.Firsts.{AreFirsts, AreTablesWith, definition_at, definitions};

use crate::words::say_the_same;
use abnf_parts::Names;
use abnf_syntax::{Block, Sheet, blocks};
use abnf_token::Folded;
use ls_lists::List;
use ls_text::Snapshot;
use std::alloc::{AllocError as Memory, Global};
use std::marker::Model;

/// A definition of a name that another one defines before.
#[derive(Clone, Copy)]
pub struct Repeat {
    /// The line of its head, from 0.
    pub line: usize,
    /// The line of the head of the first definition, from 0.
    pub original: usize,
    /// Whether it says the same as the first: the same tokens, names in any case of letters.
    pub is_same: bool,
}

/// The definitions of a text that repeat earlier ones. Contracts see them as a list, in the order of the text.
#[derive(Drop)]
pub struct Repeats {
    found: List<Repeat>,
}

impl Model for Repeats {
    ghost use Rattle.std.specs.Prelude.{List as Listed};
    ghost use Rattle.std.specs.List.Sorted.{IsNonDecreasingBy};
    ghost use Rattle.joined_grammars.specs.declared.repeats.Repeat.{Repeat};

    ghost Value = { Listed Repeat };

    ghost view = { λ r. r.found };

    ghost invariant = { λ r. IsNonDecreasingBy (λ s. s.line) r.found };
}

/// The name that a block defines by `=`, if it defines one.
fn defined_name<'t>(block: &Block<'t>) -> Option<Folded<'t>>
    ensures { option_map folded_text result ≡ (spec.definition block.now).name }
{
    match block.head() {
        Some(head) => {
            if head.adds {
                None
            } else {
                Some(Folded(head.name.text))
            }
        }
        None => None,
    }
}

/// The place of the first block that defines a name, which the block at a place defines now. If there is none, that block is the first.
fn first_with<'t>(
    names: &mut Names<'t>,
    firsts: &mut List<usize>,
    name: Folded<'t>,
    at: usize,
) -> Result<Option<usize>, Memory>
    ensures first { IfOk result (λ first. first ≡ option_and_then (slice_get firsts.old) (rule_number names.old (folded_text name.entry))) }
    ensures tables { OnOk result (AreTablesWith names.old firsts.old (folded_text name.entry) at names.new firsts.new) }
{
    match names.add(name)? {
        Some(place) => Ok(firsts.as_slice().get(place).copied()),
        None => {
            firsts.push(at)?;
            Ok(None)
        }
    }
}

/// How a block repeats the first that defines its name.
fn repeat_of(first: &Block<'_>, block: &Block<'_>) -> Repeat
    ensures { result ≡ spec.repeat (spec.definition first.now) (spec.definition block.now) }
{
    Repeat {
        line: block.first,
        original: first.first,
        is_same: say_the_same(first.items.as_slice(), block.items.as_slice()),
    }
}

/// Adds how the block at a place repeats one before it, if it does.
fn push_repeat<'t>(
    found: &mut List<Repeat>,
    names: &mut Names<'t>,
    firsts: &mut List<usize>,
    blocks: &[Block<'t>],
    at: usize,
) -> Result<(), Memory>
    requires at { at < length blocks.now }
    requires within { All (λ k. k < length blocks.now) firsts.old }
    ensures within { OnOk result (All (λ k. k < length blocks.now) firsts.new) }
    ensures found { OnOk result ((before : Listed spec.Definition) → AreFirsts before names.old (definitions blocks.now firsts.old)
        → (found.new ≡ found.old ++ spec.repeat_of before (definition_at blocks.now at))
        × AreFirsts (before ++ definition_at blocks.now at ∷ []) names.new (definitions blocks.now firsts.new)) }
{
    let block = &blocks[at];
    if let Some(name) = defined_name(block) {
        if let Some(first) = first_with(names, firsts, name, at)? {
            found.push(repeat_of(&blocks[first], block))?;
        }
    }
    Ok(())
}

/// How blocks repeat those before them.
fn repeats_among(alloc: Global, seed: u64, blocks: &[Block<'_>]) -> Result<List<Repeat>, Memory>
    ensures found { IfOk result (λ found. found ≡ spec.repeats_behind [] (map spec.definition blocks.now)) }
    ensures memory { OnErr result (0 < length blocks.now) }
{
    let mut names = Names::new(alloc, seed);
    let mut firsts = List::new(alloc);
    let mut found = List::new(alloc);
    for at in 0..blocks.len() {
        push_repeat(&mut found, &mut names, &mut firsts, blocks, at)?;
    }
    Ok(found)
}

impl Repeats {
    ghost use Rattle.abnf_syntax.specs.Blocks.{HasBlock, line_texts};
    ghost use Rattle.joined_grammars.specs.Repeats as spec;

    /// None. It takes no memory.
    pub fn none(alloc: Global) -> Repeats
        ensures { result ≡ [] }
    {
        Repeats {
            found: List::new(alloc),
        }
    }

    /// Those of a text, in time by its bytes.
    ///
    /// # Errors
    ///
    /// Where an allocation is refused. A text without blocks needs no memory.
    pub fn of(alloc: Global, text: &Snapshot) -> Result<Repeats, Memory>
        ensures found { IfOk result (λ found. spec.AreRepeats text.now found) }
        ensures memory { OnErr result (HasBlock (line_texts text.now)) }
    {
        let seed = Sheet::of(text).seed();
        let blocks = blocks(alloc, text)?;
        let found = repeats_among(alloc, seed, blocks.as_slice())?;
        Ok(Repeats { found })
    }

    /// The definition whose head stands in a line, from 0, if it repeats one. It is found by halving.
    pub fn at(&self, line: usize) -> Option<Repeat>
        ensures { result ≡ spec.repeat_at self.now line }
    {
        let found = self.found.as_slice();
        let place = found.partition_point(|repeat| repeat.line < line);
        match found.get(place) {
            Some(repeat) => {
                if repeat.line == line {
                    Some(*repeat)
                } else {
                    None
                }
            }
            None => None,
        }
    }
}
