//! Gists in words, as a machine with a stack reads them.

ghost use Rattle.std.specs.Prelude.{◌≡◌, ◌∷◌, ◌++◌, ◌↔◌, [], ℕ, Contains, Option, map, OnOk};
ghost use Rattle.abnf_parts.specs.Names.{Name};
ghost use Rattle.abnf_syntax.specs.declared.tree.Element.{out-Element};
ghost use Rattle.abnf_parts.specs.Part.{Part, opaque, ref, subparts};
ghost use Rattle.abnf_parts.specs.Leaf.{number_part};
ghost use Rattle.abnf_parts.specs.Tree.{alternatives, concatenation_part, element_part, repetition_part, tree_inside};
ghost use Rattle.abnf_lint.specs.Empty.{is_above};
ghost use Rattle.abnf_digests.specs.Digests.{no_number};
ghost use Rattle.abnf_digests.specs.Gists.{gist};
ghost use Rattle.findings_index.specs.Words.{repeat_words, words_of};
ghost use Rattle.findings_index.specs.own.Adding.{AddsWords};

use crate::table::NameTable;
use abnf_lint::is_above;
use abnf_parts::{range_of, repeat_bounds};
use abnf_syntax::{Element, MAX_NESTING, Repetition, Rule};
use abnf_token::{Folded, Token};
use ls_lists::{List, narrow};
use std::alloc::AllocError;

/// A word of a gist. Each operation stands behind what it is of.
#[derive(Clone, Copy)]
pub enum Word {
    /// A text, or characters: something that holds.
    Something,
    /// Something of which nothing is known. It holds.
    Opaque,
    /// The name with this number.
    Name(u32),
    /// Each of so many parts before.
    All(u32),
    /// One of so many parts before. Of none, nothing holds.
    Any(u32),
    /// The part before, which need not hold: a repetition whose minimum is 0.
    Optional,
    /// The part before, where nothing helps: a repetition whose minimum is above its maximum.
    Never,
}

/// The word of a number, a series or a range. A range whose ends are turned round is a choice of none.
fn number_word<'t>(token: Token<'t>) -> Word
    ensures { (number : Name → ℕ) → words_of number (gist (number_part token.entry.text.now)) ≡ result ∷ [] }
{
    if token.text.len() < 2 {
        return Word::Opaque;
    }
    let Some((low, high)) = range_of(token) else {
        return Word::Something;
    };
    if low <= high {
        Word::Something
    } else {
        Word::Any(0)
    }
}

/// Pushes what stands behind the body of a repetition.
fn push_repeat(least: u32, most: Option<u32>, words: &mut Vec<Word>) -> Result<(), AllocError>
    ensures { OnOk result (words.new.items ≡ words.old.items ++ repeat_words (is_above least most) least) }
{
    if is_above(least, most) {
        words.push(Word::Never)?;
    } else if least == 0 {
        words.push(Word::Optional)?;
    }
    Ok(())
}

/// An alternation in brackets, which may hold brackets `room` - 1 deep.
#[cycle(words)]
fn push_inside<'t>(
    names: &mut NameTable,
    room: usize,
    alternation: &[List<Repetition<'t>>],
    words: &mut Vec<Word>,
) -> Result<(), AllocError>
    ensures { OnOk result (AddsWords (gist (tree_inside no_number room alternation.now) ∷ []) names.old names.new words.old.items words.new.items) }
{
    if room == 0 {
        words.push(Word::Opaque)?;
        return Ok(());
    }
    push_concatenations(names, room - 1, alternation, words)?;
    if alternation.len() != 1 {
        words.push(Word::Any(narrow(alternation.len())?))?;
    }
    Ok(())
}

/// Concatenations side by side.
#[cycle(words)]
fn push_concatenations<'t>(
    names: &mut NameTable,
    room: usize,
    alternation: &[List<Repetition<'t>>],
    words: &mut Vec<Word>,
) -> Result<(), AllocError>
    ensures { OnOk result (AddsWords (map gist (map (concatenation_part no_number (tree_inside no_number room)) alternation.now)) names.old names.new words.old.items words.new.items) }
{
    for concatenation in alternation {
        push_concatenation(names, room, concatenation.as_slice(), words)?;
    }
    Ok(())
}

/// A concatenation: its one part, or all of them.
#[cycle(words)]
fn push_concatenation<'t>(
    names: &mut NameTable,
    room: usize,
    concatenation: &[Repetition<'t>],
    words: &mut Vec<Word>,
) -> Result<(), AllocError>
    ensures { OnOk result (AddsWords (gist (concatenation_part no_number (tree_inside no_number room) concatenation.now) ∷ []) names.old names.new words.old.items words.new.items) }
{
    push_repetitions(names, room, concatenation, words)?;
    if concatenation.len() != 1 {
        words.push(Word::All(narrow(concatenation.len())?))?;
    }
    Ok(())
}

/// Repetitions side by side.
#[cycle(words)]
fn push_repetitions<'t>(
    names: &mut NameTable,
    room: usize,
    concatenation: &[Repetition<'t>],
    words: &mut Vec<Word>,
) -> Result<(), AllocError>
    ensures { OnOk result (AddsWords (map gist (map (repetition_part no_number (tree_inside no_number room)) concatenation.now)) names.old names.new words.old.items words.new.items) }
{
    for repetition in concatenation {
        push_repetition(names, room, repetition, words)?;
    }
    Ok(())
}

/// An element, and behind it its repetition where a repeat stands there.
#[cycle(words)]
fn push_repetition<'t>(
    names: &mut NameTable,
    room: usize,
    repetition: &Repetition<'t>,
    words: &mut Vec<Word>,
) -> Result<(), AllocError>
    ensures { OnOk result (AddsWords (gist (repetition_part no_number (tree_inside no_number room) repetition.now) ∷ []) names.old names.new words.old.items words.new.items) }
{
    push_element(names, room, &repetition.element, words)?;
    match repetition.repeat {
        Some(token) => {
            let (least, most) = repeat_bounds(token);
            push_repeat(least, most, words)
        }
        None => Ok(()),
    }
}

#[cycle(words)]
fn push_element<'t>(
    names: &mut NameTable,
    room: usize,
    element: &Element<'t>,
    words: &mut Vec<Word>,
) -> Result<(), AllocError>
    ensures { OnOk result (AddsWords (gist (element_part no_number (tree_inside no_number room) (out-Element element.now)) ∷ []) names.old names.new words.old.items words.new.items) }
{
    match element {
        Element::Name(token) => {
            let number = names.number_of(Folded(token.text))?;
            words.push(Word::Name(narrow(number)?))?;
            Ok(())
        }
        Element::Quoted(_) => {
            words.push(Word::Something)?;
            Ok(())
        }
        Element::Number(token) => {
            words.push(number_word(*token))?;
            Ok(())
        }
        Element::Prose(_) => {
            words.push(Word::Opaque)?;
            Ok(())
        }
        Element::Group(inner) => push_inside(names, room, inner.as_slice(), words),
        Element::Choice(inner) => {
            push_inside(names, room, inner.as_slice(), words)?;
            words.push(Word::Optional)?;
            Ok(())
        }
    }
}

/// Pushes the words of the gists of a rule's alternatives. Its names get numbers unless they have them; a number that a name has stays.
///
/// # Errors
///
/// Where an allocation is refused, or a number of a name or of parts needs more than 32 bits. What was pushed before stays.
pub(crate) fn push_words<'t>(
    names: &mut NameTable,
    rule: &Rule<'t>,
    words: &mut Vec<Word>,
) -> Result<(), AllocError>
    ensures { OnOk result (AddsWords (map gist (alternatives no_number rule.now.body)) names.old names.new words.old.items words.new.items) }
{
    push_concatenations(names, MAX_NESTING, rule.body.as_slice(), words)
}
/// The words of a part have its names by their numbers, and what is opaque where the part has that, and no others.
pub fn words_tell_what_is_used()
    ensures names { (number : Name → ℕ) (part : Part) (n : ℕ) →
        Contains (words_of number part) (Word.Name n) ↔ ((name : Name) × (rule : Option ℕ) × Contains (subparts part) (ref name rule) × (number name ≡ n)) }
    ensures unknown { (number : Name → ℕ) (part : Part) → Contains (words_of number part) Word.Opaque ↔ Contains (subparts part) opaque }
{}
