//! The lines of a text, and which of them begin blocks.

ghost use Rattle.std.specs.Prelude.{◌≡◌, ◌<◌, ◌≤◌, ◌-◌, ◌^◌, ◌↔◌, [], Some, None, IsTrue, MatchOption, drop, length, slice_index_or, take, if◌then◌else◌};
ghost use Rattle.abnf_token.specs.Classes.{is_blank_byte};
ghost use Rattle.abnf_token.specs.Marks.{AreMarks};
ghost use Rattle.abnf_syntax.specs.Blocks.{line_texts, indent, is_content, base_indent, begins_at, HasNoContent, IsNextBlock, IsSeam, IsTop};
ghost use Rattle.abnf_syntax.specs.own.Blanks as spec;

use abnf_token::TokenMark;
use ls_text::Snapshot;
use std::hash::{DefaultHasher, Hasher};
use std::marker::Model;

/// In so many lines at the front the first with content is looked for before two texts are compared.
const FEW_LINES: usize = 64;

/// The first line of a text that has content, by which it is known where blocks begin.
#[derive(Clone, Copy)]
pub struct Top {
    /// Its number, from 0; in a text without such a line, how many lines there are.
    pub line: usize,
    /// How many SP and HTAB it begins with: the indent of the blocks.
    pub indent: usize,
}

/// The lines of a text. Contracts see the bytes of each.
#[derive(Drop)]
pub struct Sheet<'s> {
    snapshot: &'s Snapshot,
    // How many lines there are.
    count: usize,
    top: Top,
}

impl<'s> Model for Sheet<'s> {
    ghost use Rattle.std.specs.Prelude.{◌≡◌, List, length};
    ghost use Rattle.abnf_token.specs.Classes.{Text};
    ghost use Rattle.abnf_syntax.specs.Blocks.{line_texts, IsTop};

    ghost Value = { List Text };

    ghost view = { λ s. line_texts s.snapshot.now };

    ghost invariant = { λ s.
        (s.count ≡ length (line_texts s.snapshot.now)) × IsTop (line_texts s.snapshot.now) s.top.line s.top.indent };
}

/// A line, and where its tokens stand.
#[derive(Clone, Copy)]
pub struct Row<'s> {
    /// The line without its line end.
    pub text: &'s str,
    /// Where its tokens stand, in bytes of the line.
    pub marks: &'s [TokenMark],
}

/// How many lines a text has.
fn count_of(snapshot: &Snapshot) -> usize
    ensures { result ≡ length (line_texts snapshot.now) }
{
    snapshot.line_count()
}

/// A line of a text, empty behind the last line.
fn line_of(snapshot: &Snapshot, at: usize) -> &str
    ensures { result.now ≡ slice_index_or (line_texts snapshot.now) at [] }
{
    match snapshot.line(at) {
        Some(line) => line,
        None => "",
    }
}

/// A line of a text with its marks, empty behind the last line.
fn row_of(snapshot: &Snapshot, at: usize) -> Row<'_>
    ensures text { result.text.now ≡ slice_index_or (line_texts snapshot.now) at [] }
    ensures marks { AreMarks (slice_index_or (line_texts snapshot.now) at []) result.marks.now }
{
    match snapshot.row(at) {
        Some((text, marks)) => Row { text, marks },
        None => Row {
            text: "",
            marks: &[],
        },
    }
}

/// Whether a byte is SP or HTAB.
fn is_blank(byte: u8) -> bool
    ensures { result ≡ is_blank_byte byte }
{
    byte == b' ' || byte == b'\t'
}

/// Where the first byte stands that is neither SP nor HTAB.
fn first_other(bytes: &[u8]) -> Option<usize>
    ensures { MatchOption result (spec.AreBlanks bytes.now (length bytes.now)) (spec.IsFirstOther bytes.now) }
{
    bytes.iter().position(|byte| !is_blank(*byte))
}

/// The indent of a line, if it has content.
fn content_indent(line: &str) -> Option<usize>
    ensures { result ≡ (if is_content line.now then Some (indent line.now) else None) }
{
    let bytes = line.as_bytes();
    match first_other(bytes) {
        Some(indent) => {
            if bytes[indent] == b';' {
                None
            } else {
                Some(indent)
            }
        }
        None => None,
    }
}

/// The first line with content from a line on and before another one, none of which is behind the last.
fn first_content(snapshot: &Snapshot, from: usize, to: usize) -> Option<Top>
    requires order { from ≤ to }
    requires within { to ≤ length (line_texts snapshot.now) }
    ensures { MatchOption result (HasNoContent (line_texts snapshot.now) from to) (spec.IsFirstContent (line_texts snapshot.now) from to) }
{
    for at in from..to {
        if let Some(indent) = content_indent(line_of(snapshot, at)) {
            return Some(Top { line: at, indent });
        }
    }
    None
}

/// The first line with content of a text, which has none before a line.
fn top_from(snapshot: &Snapshot, from: usize) -> Top
    requires within { from ≤ length (line_texts snapshot.now) }
    requires before { HasNoContent (line_texts snapshot.now) 0 from }
    ensures { IsTop (line_texts snapshot.now) result.line result.indent }
{
    let count = count_of(snapshot);
    match first_content(snapshot, from, count) {
        Some(top) => top,
        None => Top {
            line: count,
            indent: 0,
        },
    }
}

impl<'s> Sheet<'s> {
    /// The lines of a text. The first line with content is looked for, in time by the bytes up to it.
    pub fn of(snapshot: &'s Snapshot) -> Sheet<'s>
        ensures lines { result ≡ line_texts snapshot.now }
        ensures small { length snapshot.now < 2 ^ 62 }
    {
        Sheet::with_top(snapshot, top_from(snapshot, 0))
    }

    /// The lines of a text whose first line with content is known.
    pub fn with_top(snapshot: &'s Snapshot, top: Top) -> Sheet<'s>
        requires { IsTop (line_texts snapshot.now) top.line top.indent }
        ensures lines { result ≡ line_texts snapshot.now }
        ensures small { length snapshot.now < 2 ^ 62 }
    {
        let _count = snapshot.char_count();
        Sheet {
            snapshot,
            count: count_of(snapshot),
            top,
        }
    }

    /// The first line with content of another text. If it is none of the first few, it is this one's, where that stands among the lines that
    /// both have alike at the front or at the back, and no other line with content comes before it. Else it is looked for.
    fn top_in(&self, other: &Snapshot) -> Top
        ensures { IsTop (line_texts other.now) result.line result.indent }
    {
        let count = count_of(other);
        if let Some(top) = first_content(other, 0, count.min(FEW_LINES)) {
            return top;
        }
        let front = self.snapshot.same_front(other);
        if self.top.line < front {
            return self.top;
        }
        let back = self
            .snapshot
            .same_back(other, self.count.min(count) - front);
        let end = count - back;
        if let Some(top) = first_content(other, front, end) {
            return top;
        }
        if self.top.line < self.count - back {
            return top_from(other, end);
        }
        Top {
            line: self.top.line - (self.count - back) + end,
            indent: self.top.indent,
        }
    }

    /// The lines of another text. Where most of them are this one's, only the others are looked at for the first with content.
    pub fn followed<'t>(&self, snapshot: &'t Snapshot) -> Sheet<'t>
        ensures lines { result ≡ line_texts snapshot.now }
        ensures small { length snapshot.now < 2 ^ 62 }
    {
        Sheet::with_top(snapshot, self.top_in(snapshot))
    }

    /// The first line with content.
    pub fn top(&self) -> Top
        ensures { IsTop self.now result.line result.indent }
    {
        self.top
    }

    /// How many lines there are.
    pub fn count(&self) -> usize
        ensures { result ≡ length self.now }
    {
        self.count
    }

    /// The indent of the blocks: that of the first line with content, in SP and HTAB; 0 where none has any.
    pub fn base(&self) -> usize
        ensures { result ≡ base_indent self.now }
    {
        self.top.indent
    }

    /// The line at a place, from 0, without its line end; empty behind the last line.
    pub fn line(&self, at: usize) -> &'s str
        ensures { result.now ≡ slice_index_or self.now at [] }
    {
        line_of(self.snapshot, at)
    }

    /// A number that depends on each byte of the lines, but not on line ends: the seed of a table of the names that stand
    /// there. Time goes by the bytes of the text.
    ///
    /// The hasher of std has no secret, so whoever writes a text can work out its seed. Names of this text that are
    /// changed to meet in the table change the seed, and with it where all of them stand; that none are found which meet
    /// with the seed that they make is assumed of the hasher. A table that is kept for later versions of the text keeps
    /// this seed: names of a later version can be chosen to meet with it.
    pub fn seed(&self) -> u64 {
        let mut hasher = DefaultHasher::new();
        self.snapshot.feed(&mut hasher);
        hasher.finish()
    }

    /// How many lines at the front are the same in another text, by a look at many at once. It may be fewer than there
    /// are.
    pub fn same_front(&self, other: &Sheet) -> usize
        ensures within { (result ≤ length self.now) × (result ≤ length other.now) }
        ensures same { take result self.now ≡ take result other.now }
    {
        self.snapshot.same_front(other.snapshot)
    }

    /// How many lines at the back are the same in another text, at most so many. It may be fewer than there are.
    pub fn same_back(&self, other: &Sheet, most: usize) -> usize
        ensures most { result ≤ most }
        ensures within { (result ≤ length self.now) × (result ≤ length other.now) }
        ensures same { drop (length self.now - result) self.now ≡ drop (length other.now - result) other.now }
    {
        self.snapshot.same_back(other.snapshot, most)
    }

    /// The line at a place, from 0, with the marks of its tokens; empty behind the last line.
    pub fn row(&self, at: usize) -> Row<'s>
        ensures text { result.text.now ≡ slice_index_or self.now at [] }
        ensures marks { AreMarks (slice_index_or self.now at []) result.marks.now }
    {
        row_of(self.snapshot, at)
    }

    /// Whether the line at a place, from 0, begins a block, in time by the blanks at its front. Behind the last line none
    /// does.
    pub fn begins(&self, at: usize) -> bool
        ensures { result ≡ begins_at self.now at }
    {
        match content_indent(line_of(self.snapshot, at)) {
            Some(indent) => indent <= self.top.indent,
            None => false,
        }
    }

    /// The next line from a place on that begins a block, or the line `to` where none before it does. The lines between
    /// are looked at one by one.
    pub fn next_block(&self, from: usize, to: usize) -> usize
        requires { from ≤ to }
        ensures { IsNextBlock self.now from to result }
    {
        for at in from..to {
            if self.begins(at) {
                return at;
            }
        }
        to
    }

    /// Whether no block goes over a place: the line there begins one, or no line before it does, or there is none.
    pub fn is_seam(&self, at: usize) -> bool
        requires { at ≤ length self.now }
        ensures seam { IsTrue result ↔ IsSeam self.now at }
        ensures small { length self.now < 2 ^ 64 }
    {
        let count = self.count();
        at <= self.top.line || at == count || self.begins(at)
    }
}
