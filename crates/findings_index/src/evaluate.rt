//! Whether gists hold, by their words.

ghost use Rattle.std.specs.Prelude.{◌≡◌, ◌∷◌, ◌++◌, ℕ, Bool, List, IfOk, drop, flat_map, reverse, take};
ghost use Rattle.std.specs.List.{list_all, list_any};
ghost use Rattle.abnf_parts.specs.Names.{Name};
ghost use Rattle.abnf_parts.specs.Part.{Part};
ghost use Rattle.abnf_lint.specs.Marks.{mark_at};
ghost use Rattle.findings_index.specs.declared.word.Word.{Word};
ghost use Rattle.findings_index.specs.Marked.{holds};
ghost use Rattle.findings_index.specs.Words.{is_so, run_words, step_word, words_of};

use crate::word::Word;
use std::alloc::AllocError;

/// Whether the name with this number is marked.
pub(crate) fn is_marked(marks: &[bool], number: usize) -> bool
    ensures { result ≡ mark_at marks.now number }
{
    match marks.get(number) {
        Some(mark) => *mark,
        None => false,
    }
}

/// Whether all of these hold.
fn all_hold(values: &[bool]) -> bool
    ensures { result ≡ list_all is_so values.now }
{
    values.iter().all(|held| *held)
}

/// Whether one of these holds.
fn one_holds(values: &[bool]) -> bool
    ensures { result ≡ list_any is_so values.now }
{
    values.iter().any(|held| *held)
}

/// Takes so many values from the stack, and says whether all of them hold.
fn take_all(stack: &mut Vec<bool>, count: usize) -> bool
    ensures value { result ≡ list_all is_so (take count (reverse stack.old.items)) }
    ensures rest { reverse stack.new.items ≡ drop count (reverse stack.old.items) }
{
    let kept = stack.len().saturating_sub(count);
    let all = all_hold(&stack[kept..]);
    stack.truncate(kept);
    all
}

/// Takes so many values from the stack, and says whether one of them holds.
fn take_any(stack: &mut Vec<bool>, count: usize) -> bool
    ensures value { result ≡ list_any is_so (take count (reverse stack.old.items)) }
    ensures rest { reverse stack.new.items ≡ drop count (reverse stack.old.items) }
{
    let kept = stack.len().saturating_sub(count);
    let any = one_holds(&stack[kept..]);
    stack.truncate(kept);
    any
}

/// Takes what a word is of from the stack, and says whether it holds.
fn value_of(word: Word, marks: &[bool], stack: &mut Vec<bool>) -> bool
    ensures { result ∷ reverse stack.new.items ≡ step_word (mark_at marks.now) word (reverse stack.old.items) }
{
    match word {
        Word::Something | Word::Opaque => true,
        Word::Name(number) => is_marked(marks, number as usize),
        Word::All(count) => take_all(stack, count as usize),
        Word::Any(count) => take_any(stack, count as usize),
        Word::Optional => {
            stack.pop();
            true
        }
        Word::Never => {
            stack.pop();
            false
        }
    }
}

/// Whether the gist in these words holds, by marks of names; of several gists, whether one does. What is on the stack is let go: it is
/// room that serves again.
///
/// # Errors
///
/// Where an allocation is refused.
pub(crate) fn hold(
    words: &[Word],
    marks: &[bool],
    stack: &mut Vec<bool>,
) -> Result<bool, AllocError>
    ensures one { IfOk result (λ answer. (number : Name → ℕ) (part : Part) → words.now ≡ words_of number part →
        answer ≡ holds (λ name. mark_at marks.now (number name)) part) }
    ensures several { IfOk result (λ answer. (number : Name → ℕ) (parts : List Part) → words.now ≡ flat_map (words_of number) parts →
        answer ≡ list_any (holds (λ name. mark_at marks.now (number name))) parts) }
{
    stack.clear();
    for word in words {
        let value = value_of(*word, marks, stack);
        stack.push(value)?;
    }
    Ok(one_holds(stack.as_slice()))
}

/// Once the machine has read the words of a part, it has whether the part holds on its stack.
pub fn words_tell_what_holds()
    ensures { (marks : ℕ → Bool) (number : Name → ℕ) (part : Part) (rest : List Word) (stack : List Bool) →
        run_words marks (words_of number part ++ rest) stack ≡ run_words marks rest (holds (λ name. marks (number name)) part ∷ stack) }
{}
