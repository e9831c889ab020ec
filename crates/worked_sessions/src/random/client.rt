//! A client that says what chance has it say.

use super::dice::Dice;
use super::messages::{LINES, METHODS, NAMES, Question, Said, Version, WAYS};
use std::alloc::{AllocError, Global};

#[derive(Drop)]
struct Client {
    dice: Dice,
    /// The texts of the two documents, where they are open.
    zero: Option<Version>,
    one: Option<Version>,
    /// The last number of a text, and the last id.
    label: u64,
    id: u64,
}

impl Client {
    fn text_of(&self, document: u32) -> Option<Version> {
        if document == 0 { self.zero } else { self.one }
    }

    fn put(&mut self, document: u32, version: Option<Version>) {
        if document == 0 {
            self.zero = version;
        } else {
            self.one = version;
        }
    }

    fn opens(&mut self, document: u32) -> Said {
        self.label = self.label.saturating_add(1);
        let version = Version {
            document,
            label: self.label,
            first: self.dice.below(LINES),
            second: self.dice.below(LINES),
            third: self.dice.below(LINES),
        };
        self.put(document, Some(version));
        Said::Opened(version)
    }

    // A line, which is a new one if it is to change.
    fn line(&mut self, old: u32, changes: bool) -> u32 {
        if changes { self.dice.below(LINES) } else { old }
    }

    fn changes(&mut self, old: Version) -> Said {
        self.label = self.label.saturating_add(1);
        let way = self.dice.below(WAYS);
        let version = Version {
            document: old.document,
            label: self.label,
            first: self.line(old.first, way == 0 || way >= 3),
            second: self.line(old.second, way == 1 || way >= 4),
            third: self.line(old.third, way >= 2),
        };
        self.put(old.document, Some(version));
        Said::Changed(version, way)
    }

    fn closes(&mut self, document: u32) -> Said {
        self.put(document, None);
        Said::Closed(document)
    }

    fn asks(&mut self, document: u32, version: Option<Version>) -> Said {
        self.id = self.id.saturating_add(1);
        let question = Question {
            id: self.id,
            document,
            method: self.dice.below(METHODS),
            line: self.dice.below(3),
            character: self.dice.below(9),
            name: self.dice.below(NAMES),
        };
        Said::Asked(question, version)
    }

    // One of the last four requests, answered or not.
    fn cancels(&mut self) -> Said {
        let back = u64::from(self.dice.below(4));
        Said::Cancelled(self.id.saturating_sub(back))
    }

    fn says(&mut self) -> Said {
        let document = self.dice.below(2);
        let choice = self.dice.below(12);
        match self.text_of(document) {
            None => {
                if choice == 0 {
                    self.asks(document, None)
                } else {
                    self.opens(document)
                }
            }
            Some(version) => match choice {
                0 => self.closes(document),
                1 | 2 | 3 => self.changes(version),
                4 => self.cancels(),
                _ => self.asks(document, Some(version)),
            },
        }
    }
}

/// All that a client says after its `initialize`, with the id 1: so many messages.
pub(crate) fn said(alloc: Global, seed: u64, count: usize) -> Result<Vec<Said>, AllocError> {
    let mut client = Client {
        dice: Dice::new(seed),
        zero: None,
        one: None,
        label: 0,
        id: 1,
    };
    let mut said = Vec::new(alloc);
    for _ in 0..count {
        said.push(client.says())?;
    }
    Ok(said)
}
