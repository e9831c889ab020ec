//! Rules of other grammars, joined to a grammar.

ghost use Rattle.std.specs.Prelude.{◌≡◌, ◌++◌, ◌∷◌, [], IfOk, OnOk, option_map, string_bytes};
ghost use Rattle.std.specs.List.{slice_get};
ghost use Rattle.std.specs.Option.{option_map_or};
ghost use Rattle.std.specs.Str.{chars};
ghost use Rattle.ls_text.specs.Lines.{lines};
ghost use Rattle.abnf_parts.specs.Names.{folded_text};
ghost use Rattle.joined_grammars.specs.Joined as spec;
ghost use Rattle.joined_grammars.specs.own.Passes.{JoinsBlocks, state};

use abnf_parts::Names;
use abnf_syntax::{Block, blocks};
use abnf_token::Folded;
use ls_text::Snapshot;
use std::alloc::{AllocError as Memory, Global};
use std::hash::{DefaultHasher, Hasher};

/// A number that depends on each line of the texts, so that a name which is changed to meet others in the table changes
/// where all of them stand.
fn seed_of(told: &Snapshot, others: &[Snapshot]) -> u64 {
    let mut hasher = DefaultHasher::new();
    told.feed(&mut hasher);
    for other in others {
        other.feed(&mut hasher);
    }
    hasher.finish()
}

/// The name that a block's head defines or adds to, if it has a head.
fn head_name<'t>(block: &Block<'t>) -> Option<Folded<'t>>
    ensures { option_map folded_text result ≡ spec.defined_name block.now }
{
    match block.head() {
        Some(head) => Some(Folded(head.name.text)),
        None => None,
    }
}

/// Whether a block has a head whose name isn't among these.
fn is_new<'t>(names: &Names<'t>, block: &Block<'t>) -> bool
    ensures { result ≡ spec.is_new names.now block.now }
{
    match head_name(block) {
        Some(name) => names.index_of(name).is_none(),
        None => false,
    }
}

/// Appends a line of a text, with LF at its end. There is none behind the last line.
fn push_line(joined: &mut String, text: &Snapshot, at: usize) -> Result<(), Memory>
    ensures { OnOk result (chars (string_bytes joined.new) ≡ chars (string_bytes joined.old) ++ option_map_or spec.with_break (slice_get (lines text.now) at) []) }
{
    if let Some(line) = text.line(at) {
        joined.push_str(line)?;
        joined.push_str("\n")?;
    }
    Ok(())
}

/// Appends the lines of a block of a text.
fn push_block(joined: &mut String, text: &Snapshot, block: &Block<'_>) -> Result<(), Memory>
    ensures { OnOk result (chars (string_bytes joined.new) ≡ chars (string_bytes joined.old) ++ spec.block_text text.now block.now) }
{
    for at in block.first..block.end {
        push_line(joined, text, at)?;
    }
    Ok(())
}

/// Appends the lines of a block of a text if it has a new name.
fn push_if_new<'t>(
    joined: &mut String,
    names: &Names<'t>,
    text: &Snapshot,
    block: &Block<'t>,
) -> Result<(), Memory>
    ensures { OnOk result (chars (string_bytes joined.new) ≡ chars (string_bytes joined.old) ++ spec.new_text names.now text.now (block.now ∷ [])) }
{
    if is_new(names, block) {
        push_block(joined, text, block)?;
    }
    Ok(())
}

/// Appends the lines of those blocks of a text that have new names.
fn push_new<'t>(
    joined: &mut String,
    names: &Names<'t>,
    text: &Snapshot,
    blocks: &[Block<'t>],
) -> Result<(), Memory>
    ensures { OnOk result (chars (string_bytes joined.new) ≡ chars (string_bytes joined.old) ++ spec.new_text names.now text.now blocks.now) }
{
    for block in blocks {
        push_if_new(joined, names, text, block)?;
    }
    Ok(())
}

/// Adds the name of a block's head, if it has one.
fn add_head<'t>(names: &mut Names<'t>, block: &Block<'t>) -> Result<(), Memory>
    ensures { OnOk result (names.new ≡ spec.with_head_name names.old block.now) }
{
    if let Some(name) = head_name(block) {
        names.add(name)?;
    }
    Ok(())
}

/// Adds the names of the heads of blocks.
fn add_heads<'t>(names: &mut Names<'t>, blocks: &[Block<'t>]) -> Result<(), Memory>
    ensures { OnOk result (names.new ≡ spec.with_heads names.old blocks.now) }
{
    for block in blocks {
        add_head(names, block)?;
    }
    Ok(())
}

/// Appends the new blocks of a text, whose names aren't new from now on.
fn push_other<'t>(
    alloc: Global,
    joined: &mut String,
    names: &mut Names<'t>,
    other: &'t Snapshot,
) -> Result<(), Memory>
    ensures { OnOk result (JoinsBlocks other.entry.now (state names.old (chars (string_bytes joined.old))) (state names.new (chars (string_bytes joined.new)))) }
{
    let found = blocks(alloc, other)?;
    push_new(joined, names, other, found.as_slice())?;
    add_heads(names, found.as_slice())
}

/// The text of a grammar, and behind it, of each other text in order, the blocks whose heads have names that no text
/// before has: all of its blocks with such a name, but none without a head. The text of the grammar should end in a line
/// end. All texts should be left aligned, as the indent of the first of their rules counts for all of them.
///
/// Time and memory go by the length of all texts. Names are found by their hashes, with a seed made of all lines.
///
/// # Errors
///
/// Where an allocation is refused.
pub fn joined<'t>(
    alloc: Global,
    told: &'t Snapshot,
    others: &'t [Snapshot],
) -> Result<String, Memory>
    ensures { IfOk result (λ text. spec.IsJoined told.entry.now others.entry.now (chars (string_bytes text))) }
{
    let mut names = Names::new(alloc, seed_of(told, others));
    let mut text = told.to_text()?;
    let found = blocks(alloc, told)?;
    add_heads(&mut names, found.as_slice())?;
    for other in others {
        push_other(alloc, &mut text, &mut names, other)?;
    }
    Ok(text)
}
