//! What is still to be done in the walk.

ghost use Rattle.std.specs.Prelude.{◌≡◌, [], ◌∷◌, MatchOption, OnOk};
ghost use Rattle.abnf_cert.specs.Accepted.{entry_at};
ghost use Rattle.abnf_least.specs.own.Walk.{keep, keep_all, keep_times};
ghost use Rattle.abnf_least.specs.declared.work.Task.TheVariants.{End};

use abnf_cert::Entry;
use abnf_cert::entries::entry_of;
use abnf_parts::NodeNo;
use std::alloc::{AllocError, Global};
use std::marker::Model;

#[derive(Clone, Copy)]
pub(crate) enum Task {
    /// The part with this number is to be written.
    Write(usize),
    /// A part has been written whole, from this character of the text on.
    End { part: usize, start: usize },
}

/// Tasks, the next one first. Contracts see their list.
#[derive(Drop)]
pub(crate) struct Work {
    tasks: Vec<Task>,
}

impl Model for Work {
    ghost use Rattle.std.specs.Prelude.{List, reverse};
    ghost use Rattle.abnf_least.specs.declared.work.Task.{Task};

    ghost Value = { List Task };

    ghost view = { λ w. reverse w.tasks.items };
}

impl Work {
    /// No tasks. It takes no memory.
    pub fn new(alloc: Global) -> Work
        ensures { result ≡ [] }
    {
        Work {
            tasks: Vec::new(alloc),
        }
    }

    /// Takes the next task away.
    pub fn pop(&mut self) -> Option<Task>
        ensures { MatchOption result (self.old ≡ []) (λ task. self.old ≡ task ∷ self.new) }
    {
        self.tasks.pop()
    }

    /// Lets a part be written next, unless its length is 0.
    pub fn push(&mut self, entries: &[Entry], part: usize) -> Result<(), AllocError>
        ensures { OnOk result (self.new ≡ keep (entry_at entries.now) part self.old) }
    {
        match entry_of(entries, part) {
            Entry::Nothing | Entry::Least { length: 0, .. } => {}
            Entry::Least { .. } => self.tasks.push(Task::Write(part))?,
        }
        Ok(())
    }

    /// Lets parts be written next, in their order.
    pub fn push_all(&mut self, entries: &[Entry], parts: &[NodeNo]) -> Result<(), AllocError>
        ensures { OnOk result (self.new ≡ keep_all (entry_at entries.now) parts.now self.old) }
    {
        let mut at = parts.len();
        while at > 0 {
            at -= 1;
            self.push(entries, parts[at].get())?;
        }
        Ok(())
    }

    /// Lets a part be written next so many times. A part of length 0 takes no step.
    pub fn push_times(
        &mut self,
        entries: &[Entry],
        count: u32,
        part: usize,
    ) -> Result<(), AllocError>
        ensures { OnOk result (self.new ≡ keep_times (entry_at entries.now) count part self.old) }
    {
        for _ in 0..count {
            self.push(entries, part)?;
        }
        Ok(())
    }

    /// Lets a part end next.
    pub fn push_end(&mut self, part: usize, start: usize) -> Result<(), AllocError>
        ensures { OnOk result (self.new ≡ End part start ∷ self.old) }
    {
        self.tasks.push(Task::End { part, start })?;
        Ok(())
    }
}
