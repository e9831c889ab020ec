//! Walks over the items of lines.

ghost use Rattle.std.specs.Prelude.{◌≡◌, ◌≤◌, ◌<◌, List, [], None, IfSome, IsTrue, not};
ghost use Rattle.abnf_token.specs.Marks.{AreMarks};
ghost use Rattle.abnf_digests.specs.BareItems.{BareItem, AreBareItems};
ghost use Rattle.incremental_findings.specs.own.Walks as spec;

use crate::line_item::{LineItem, Stand, are_alike, item_at};
use abnf_syntax::{Row, Sheet, is_item};

/// A walk over the items of some lines.
#[derive(Drop)]
pub struct Walk<'w, 's> {
    sheet: &'w Sheet<'s>,
    /// The line in which it is.
    row: Row<'s>,
    /// The next of that line's marks.
    next: usize,
    stand: Stand,
    /// The line behind that one.
    at: usize,
    /// The line behind the last one.
    end: usize,
}

impl<'w, 's> Walk<'w, 's> {
    /// The walk over the lines from one up to another.
    fn over(sheet: &'w Sheet<'s>, from: usize, to: usize) -> Walk<'w, 's>
        requires { from ≤ to }
        ensures walks { spec.IsWalk result }
        ensures leaves { (rest : List BareItem) → spec.Leaves result rest → AreBareItems sheet.now from to rest }
    {
        Walk {
            sheet,
            row: Row {
                text: "",
                marks: &[],
            },
            next: 0,
            stand: Stand::at_line(false),
            at: from,
            end: to,
        }
    }

    /// The next item of the line.
    fn next_in_line(&mut self) -> Option<LineItem<'s>>
        requires { spec.IsWalk self.old }
        ensures walks { spec.IsWalk self.new }
        ensures some { IfSome result (λ item. spec.Gives self.old item self.new) }
        ensures none { result ≡ None → spec.IsAtEnd self.old self.new }
        ensures stays { spec.StaysIn self.old self.new }
    {
        while self.next < self.row.marks.len() {
            let marks = self.row.marks;
            let mark = &marks[self.next];
            self.next += 1;
            if is_item(mark.kind) {
                let item = item_at(&self.row, self.stand, mark);
                self.stand = Stand::behind_item();
                return Some(item);
            }
            self.stand = self.stand.behind_gap();
        }
        None
    }

    /// Goes to the next line.
    fn turn(&mut self)
        requires { self.old.at < self.old.end }
        ensures walks { spec.IsWalk self.new }
        ensures turns { spec.Turns self.old self.new }
    {
        let at = self.at;
        self.row = self.sheet.row(at);
        self.next = 0;
        self.stand = Stand::at_line(self.sheet.begins(at));
        self.at = at + 1;
    }

    /// The next item.
    fn next(&mut self) -> Option<LineItem<'s>>
        requires { spec.IsWalk self.old }
        ensures walks { spec.IsWalk self.new }
        ensures some { IfSome result (λ item. spec.Gives self.old item self.new) }
        ensures none { result ≡ None → spec.Leaves self.old [] }
    {
        'lines: loop {
            if let Some(item) = self.next_in_line() {
                return Some(item);
            }
            if self.at == self.end {
                return None;
            }
            self.turn();
        }
    }

    /// Whether the next item says the same as this one.
    fn follows(&mut self, item: &LineItem) -> bool
        requires { spec.IsWalk self.old }
        ensures walks { spec.IsWalk self.new }
        ensures gives { IsTrue result → spec.GivesBareItem self.old (spec.bare_item_of item.now) self.new }
    {
        match self.next() {
            Some(next) => are_alike(item, &next),
            None => false,
        }
    }

    /// Whether the next items say the same as those of a line, which begins a block or doesn't.
    fn follows_row(&mut self, row: &Row, begins: bool) -> bool
        requires walks { spec.IsWalk self.old }
        requires marks { AreMarks row.now.text.now row.now.marks.now }
        ensures walks { spec.IsWalk self.new }
        ensures gives { IsTrue result → spec.GivesAll self.old (spec.bare_items_marked row.now.text.now (spec.stand begins (not begins)) row.now.marks.now) self.new }
    {
        let mut stand = Stand::at_line(begins);
        for mark in row.marks {
            if is_item(mark.kind) {
                if !self.follows(&item_at(row, stand, mark)) {
                    return false;
                }
                stand = Stand::behind_item();
            } else {
                stand = stand.behind_gap();
            }
        }
        true
    }
}

/// Whether the lines of a text from one up to another say the same of blocks as some lines of another text.
pub fn say_the_same(
    ours: &Sheet,
    from: usize,
    to: usize,
    theirs: &Sheet,
    there: usize,
    end: usize,
) -> bool
    requires ours { from ≤ to }
    requires theirs { there ≤ end }
    ensures { IsTrue result → spec.SayTheSame ours.now from to theirs.now there end }
{
    let mut walk = Walk::over(theirs, there, end);
    for at in from..to {
        let row = ours.row(at);
        if !walk.follows_row(&row, ours.begins(at)) {
            return false;
        }
    }
    walk.next().is_none()
}
