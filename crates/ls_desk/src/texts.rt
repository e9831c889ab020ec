//! A text that is to stand at a desk, and what it puts down.
ghost use Rattle.std.specs.Prelude.{◌≡◌, ◌≤◌, IfOk, false, length};
ghost use Rattle.std.specs.Str.{chars};
ghost use Rattle.ls_text.specs.Edits.{is_too_large};
ghost use Rattle.ls_text.specs.Lines.{max_bytes};

use ls_lists::Text;
use ls_machine::{Document, SharedSnapshot, Waiting};
use ls_text::{Snapshot, TextFault};
use std::alloc::{AllocError, Global};

/// A text that is to stand at a desk, and the job to diagnose it.
pub struct Next {
    pub document: Document,
    pub waiting: Waiting,
}

// Not derived, so that what lets one go is proved without its fields.
impl Drop for Next {
    fn drop(self) {
        let Next {
            document: _,
            waiting: _,
        } = self;
    }
}

impl Next {
    /// Its document and its job.
    pub fn into_parts(self) -> (Document, Waiting)
        ensures document { result.0 ≡ self.document }
        ensures waiting { result.1 ≡ self.waiting }
    {
        let Next { document, waiting } = self;
        (document, waiting)
    }
}

/// The text of a document that is to be opened, which isn't too large, as the desk keeps it. All of it is read.
///
/// # Errors
///
/// Where an allocation is refused.
pub fn snapshot_of_text(alloc: Global, text: Text) -> Result<SharedSnapshot, AllocError>
    requires { length text ≤ max_bytes }
    ensures text { IfOk result (λ shared. shared ≡ chars text) }
    ensures fits { IfOk result (λ shared. is_too_large shared ≡ false) }
{
    match Snapshot::of_text(alloc, text.into_string()) {
        Ok(snapshot) => Ok(SharedSnapshot::new(alloc, snapshot)?),
        Err(TextFault::TooLarge) => unreachable!(),
        Err(TextFault::Memory) => Err(AllocError),
    }
}
