//! Texts in UTF-8.

ghost use Rattle.std.specs.Prelude.{◌≡◌, IfOk, IsTrue, ◌↔◌, [], length, string_bytes};

use std::alloc::{AllocError, Global};
use std::marker::Model;

/// A text in UTF-8. Contracts see the list of its bytes.
#[derive(Drop)]
pub struct Text {
    string: String,
}

impl Model for Text {
    ghost use Rattle.std.specs.Prelude.{ℕ, List, string_bytes};

    ghost Value = { List ℕ };

    ghost view = { λ text. string_bytes text.string };
}

impl Text {
    /// The text that a `String` holds. Nothing is copied.
    pub fn new(string: String) -> Text
        ensures { result ≡ string_bytes string }
    {
        Text { string }
    }

    /// A text of its own with the content of `content`, in time by its bytes.
    ///
    /// # Errors
    ///
    /// Where an allocation is refused.
    pub fn from_str(alloc: Global, content: &str) -> Result<Text, AllocError>
        ensures { IfOk result (λ text. text ≡ content.now) }
    {
        Ok(Text {
            string: String::from_str(alloc, content)?,
        })
    }

    /// The content as a `str`, which is borrowed from the text.
    pub fn as_str(&self) -> &str
        ensures { result.now ≡ self.now }
    {
        self.string.as_str()
    }

    /// The `String` that the text holds. Nothing is copied.
    pub fn into_string(self) -> String
        ensures { string_bytes result ≡ self }
    {
        let Text { string } = self;
        string
    }

    /// The length in bytes of UTF-8.
    pub fn len(&self) -> usize
        ensures { result ≡ length self.now }
    {
        self.string.len()
    }

    /// Whether the text has no bytes.
    pub fn is_empty(&self) -> bool
        ensures { IsTrue result ↔ (self.now ≡ []) }
    {
        self.string.is_empty()
    }

    /// A text of its own with the same content, in time by its bytes.
    ///
    /// # Errors
    ///
    /// Where an allocation is refused.
    pub fn copy(&self) -> Result<Text, AllocError>
        ensures { IfOk result (λ text. text ≡ self.now) }
    {
        Ok(Text {
            string: self.string.clone()?,
        })
    }
}
