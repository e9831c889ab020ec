//! Questions about a document.

ghost use Rattle.std.specs.Prelude.{◌≡◌, true, IfOk, OnErr};
ghost use Rattle.ls_answers.specs.Asks.{is_rename};

use ls_lists::Text;
use ls_text::{Position, Range};
use std::alloc::AllocError as Memory;

/// A question about a document.
#[derive(Drop)]
pub enum Ask {
    /// What is known of the name at a position (LSP 3.17, "Hover Request").
    Hover(Position),
    /// Where the name at a position is defined (LSP 3.17, "Goto Definition Request").
    Definition(Position),
    /// Where the name at a position stands. The second field says whether the places that define it are among them (LSP 3.17, "Find
    /// References Request").
    References(Position, bool),
    /// Its symbols (LSP 3.17, "Document Symbols Request").
    Symbols,
    /// What to write anew so that the name at a position is this one, in the case that it has here (LSP 3.17, "Rename Request").
    Rename(Position, Text),
    /// What could be inserted at a range (LSP 3.17, "Code Action Request").
    Action(Range),
    /// The classes of its tokens (LSP 3.17, "Semantic Tokens").
    Tokens,
    /// What is wrong or doubtful in it (LSP 3.17, "PublishDiagnostics Notification").
    Diagnose,
}

impl Ask {
    /// The same question once more.
    ///
    /// # Errors
    ///
    /// Where an allocation is refused. A rename alone asks for one, for its new name.
    pub fn copy(&self) -> Result<Ask, Memory>
        ensures copy { IfOk result (λ ask. ask ≡ self.now) }
        ensures memory { OnErr result (is_rename self.now ≡ true) }
    {
        match self {
            Ask::Hover(position) => Ok(Ask::Hover(*position)),
            Ask::Definition(position) => Ok(Ask::Definition(*position)),
            Ask::References(position, declarations) => {
                Ok(Ask::References(*position, *declarations))
            }
            Ask::Symbols => Ok(Ask::Symbols),
            Ask::Rename(position, name) => Ok(Ask::Rename(*position, name.copy()?)),
            Ask::Action(range) => Ok(Ask::Action(*range)),
            Ask::Tokens => Ok(Ask::Tokens),
            Ask::Diagnose => Ok(Ask::Diagnose),
        }
    }
}
