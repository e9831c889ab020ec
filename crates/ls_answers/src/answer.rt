//! What questions are answered.

ghost use Rattle.std.specs.Prelude.{◌≡◌};
ghost use Rattle.ls_answers.specs.DraftDiagnostics as draft;

use abnf_cert::Cert;
use abnf_least::Shortest;
use abnf_lint::{Code, Severity};
use draft_grammars::DraftRenameFault;
use ls_lists::{List, Text};
use ls_text::{Position, Range};
use thiserror::Error;

/// A rule of a grammar, as the outline of a document shows it (LSP 3.17, "Document Symbols Request").
#[derive(Drop)]
pub struct Symbol {
    /// The name as it is written at the head of the block.
    pub name: Text,
    /// From the block's first item to the end of its last.
    pub range: Range,
    /// The rule's name alone.
    pub name_range: Range,
}

/// What is shown of a name (LSP 3.17, "Hover Request").
#[derive(Drop)]
pub struct HoverText {
    /// Where the name stands.
    pub range: Range,
    /// What is known of the shortest strings of its rule, in one or two lines.
    pub text: Text,
    /// The same as a value, beside the certificate from which it follows. None where the name stands for no rule.
    pub example: Option<(Shortest, Cert)>,
}

/// What is wrong or doubtful at a place (LSP 3.17, "PublishDiagnostics Notification").
#[derive(Drop)]
pub struct Diagnostic {
    /// Where it stands.
    pub range: Range,
    /// Its code, from which its severity follows.
    pub code: Code,
    /// What is said of it.
    pub message: Text,
}

/// What is found in a draft at a place: what is found in its grammar, or what only a draft has.
#[derive(Clone, Copy, Debug, Drop, PartialEq, Eq)]
pub enum DraftCode {
    /// A code of the grammar.
    Grammar(Code),
    /// `differs`: an earlier block of the draft defines the name, and says something else. At the head of the second or later one.
    Differs,
    /// `xml`: the draft's XML is at fault, and what stands behind isn't read. At the fault's first character.
    Xml,
}

impl DraftCode {
    /// Its text.
    pub fn text(self) -> &'static str
        ensures { result.now ≡ draft.draft_code_text self }
    {
        match self {
            DraftCode::Grammar(code) => code.text(),
            DraftCode::Differs => "differs",
            DraftCode::Xml => "xml",
        }
    }

    /// How grave it is.
    pub fn severity(self) -> Severity
        ensures { result ≡ draft.draft_severity self }
    {
        match self {
            DraftCode::Grammar(code) => code.severity(),
            DraftCode::Differs | DraftCode::Xml => Severity::Error,
        }
    }
}

/// What is wrong or doubtful at a place of a draft (LSP 3.17, "PublishDiagnostics Notification").
#[derive(Drop)]
pub struct DraftDiagnostic {
    /// Where it stands.
    pub range: Range,
    /// Its code, from which its severity follows.
    pub code: DraftCode,
    /// What is said of it.
    pub message: Text,
}

/// A text that could be inserted (LSP 3.17, "Code Action Request").
#[derive(Drop)]
pub struct Insertion {
    /// Where it would come: at the start of a line.
    pub position: Position,
    /// A comment on a line of its own, with its line end.
    pub text: Text,
    /// The certificate from which the example in the text follows.
    pub cert: Cert,
}

/// Why a name isn't given another text (LSP 3.17, "Rename Request").
#[derive(Clone, Copy, Debug, Drop, PartialEq, Eq, Error)]
pub enum RenameFault {
    /// The new text isn't a name (RFC 5234, section 2.1).
    #[error("not a rule name")]
    NotAName,
    /// No name stands there, or none that the document defines.
    #[error("nothing to rename")]
    NothingToRename,
    /// The new text is another name of the document or that of a core rule, in whatever case.
    #[error("name in use")]
    NameInUse,
}

/// What only a question about a draft is answered.
#[derive(Drop)]
pub enum DraftAnswer {
    /// Why a rename that the draft's grammar grants isn't granted in the draft.
    Refused(DraftRenameFault),
    /// What is found in the draft, in its order.
    Findings(List<DraftDiagnostic>),
}

/// What is answered to a question about a document. Positions and ranges count what those of the question do.
#[derive(Drop)]
pub enum Answer {
    /// What is shown at a position. None where no name stands there.
    Hover(Option<HoverText>),
    /// Ranges of places in the text, in its order. There are none where no name stands at the position.
    Places(List<Range>),
    /// One for each block with a head, in the order of the text.
    Symbols(List<Symbol>),
    /// The ranges that a rename writes anew, in the order of the text, and what each gets.
    Edits(List<Range>, Text),
    /// Why a rename isn't granted: the first of the causes that holds, in their order.
    Refused(RenameFault),
    /// What could be inserted. None where no name that the text defines stands at the start of the range, or its rule has no example that
    /// is shown.
    Insert(Option<Insertion>),
    /// Five numbers for each token but blanks and bad ones, in the order of the text.
    Numbers(List<u32>),
    /// What is found in a text that is a grammar, in its order.
    Findings(List<Diagnostic>),
    /// What only a draft has.
    Draft(DraftAnswer),
}
