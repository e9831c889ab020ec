//! Texts with the definitions that they repeat, written out by hand.

use crate::texts::snapshot;
use findings_files::FileFault;
use joined_grammars::Repeats;
use std::alloc::Global;

/// A text, and of each line from 0 whether its definition repeats another one: the line of the first, and whether it says the same.
type Row = (&'static str, &'static [Option<(usize, bool)>]);

const REPEATS: &[Row] = &[
    ("", &[None]),
    ("a = b\nb = \"x\"\n", &[None, None, None]),
    // the same tokens, in any case of names, with other blanks, comments and line ends
    (
        "a = b / 2c\nA=B /\r\n 2C ; again\na = b / 3c\n",
        &[None, Some((0, true)), None, Some((0, false)), None],
    ),
    // texts that aren't names count by their letters
    (
        "a = \"x\"\na = \"X\"\na = x\nx = %x41\nX = %X41\n",
        &[
            None,
            Some((0, false)),
            Some((0, false)),
            None,
            Some((3, false)),
            None,
        ],
    ),
    // one token more or less
    (
        "a = b\na = b c\na =\na\n",
        &[None, Some((0, false)), Some((0, false)), None, None],
    ),
    // what adds to a name repeats nothing, and is no first definition
    (
        "a =/ b\na = b\na =/ b\na = b\n",
        &[None, None, None, Some((1, true)), None],
    ),
    // the first counts, of three
    (
        "b = c\na = b\na = c\na = c\nb = c",
        &[
            None,
            None,
            Some((1, false)),
            Some((1, false)),
            Some((0, true)),
        ],
    ),
];

/// How a definition in a line repeats another one.
fn repeat_at(repeats: &Repeats, line: usize) -> Option<(usize, bool)> {
    match repeats.at(line) {
        Some(repeat) => Some((repeat.original, repeat.is_same)),
        None => None,
    }
}

/// The repeats of a text.
fn repeats_of(alloc: Global, text: &str) -> Result<Repeats, FileFault> {
    let text = snapshot(alloc, text)?;
    Ok(Repeats::of(alloc, &text)?)
}

#[test]
fn finds_repeats(rt: HostRuntime) -> Result<(), FileFault> {
    let rows = REPEATS;
    assert!(rt; rows.len() >= 7);
    for (text, wanted) in rows {
        let repeats = repeats_of(rt.alloc(), text)?;
        for (line, repeat) in wanted.iter().enumerate() {
            assert!(rt; repeat_at(&repeats, line) == *repeat, "{text}: {line}");
        }
        assert!(rt; repeats.at(wanted.len()).is_none(), "{text}");
    }
    Ok(())
}
