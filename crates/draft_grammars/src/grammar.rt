//! What is read of a draft: its grammar, the text of that, and its fault.

ghost use Rattle.std.specs.Prelude.{◌≡◌, ◌==◌, ◌≤◌, encode_utf8_all, IfOk, length, option_map, position, slice_get};
ghost use Rattle.std.specs.Arc.{arc_value};
ghost use Rattle.ls_text.specs.Lines.{max_bytes};
ghost use Rattle.origins.specs.Origins.{characters};
ghost use Rattle.draft_grammars.specs.Drafts.{contents_in, fault_in, grammar_in};

use crate::following::made_of;
use crate::format::Format;
use ls_text::{Snapshot, TextFault};
use markdown_blocks::gather_markdown;
use origins::Gathered;
use std::alloc::{AllocError, Global};
use std::marker::Model;
use std::sync::Arc;
use xml_blocks::{XmlFault, XmlFront, gather_front};

/// The grammar of a draft: its text, where the characters of that come from, and at which fault of the draft it ends, if it has one. Contracts
/// see each character with the offset at which it begins in the draft, in characters.
#[derive(Drop)]
pub struct DraftGrammar {
    gathered: Gathered,
    fault: Option<XmlFault>,
    text: Arc<Snapshot>,
}

impl Model for DraftGrammar {
    ghost use Rattle.std.specs.Prelude.{◌≡◌};
    ghost use Rattle.std.specs.Arc.{arc_value};
    ghost use Rattle.origins.specs.Origins.{characters};
    ghost use Rattle.draft_grammars.specs.Drafts.{Contents};

    ghost Value = { Contents };

    ghost view = { λ grammar. record { grammar = grammar.gathered; fault = grammar.fault } };

    ghost invariant = { λ grammar. arc_value grammar.text ≡ characters grammar.gathered };
}

impl DraftGrammar {
    /// What is read of a draft, in time and memory by the draft's length. The grammar of one in XML is that in front of its first fault.
    ///
    /// # Errors
    ///
    /// Where an allocation is refused.
    pub fn of(alloc: Global, format: Format, draft: &Snapshot) -> Result<DraftGrammar, AllocError>
        ensures { IfOk result (λ grammar. grammar ≡ contents_in format draft.now) }
    {
        let _count = draft.char_count();
        let XmlFront { grammar, fault } = read(alloc, format, draft)?;
        let text = text_of(alloc, &grammar)?;
        Ok(DraftGrammar {
            gathered: grammar,
            fault,
            text,
        })
    }

    /// The grammar of a draft as [`DraftGrammar::of`] gives it, in less time where another draft has the same grammar, or one that differs in
    /// a few lines: the others are shared then.
    ///
    /// # Errors
    ///
    /// Where an allocation is refused.
    pub fn following(
        alloc: Global,
        format: Format,
        draft: &Snapshot,
        before: &DraftGrammar,
    ) -> Result<DraftGrammar, AllocError>
        ensures { IfOk result (λ grammar. grammar ≡ contents_in format draft.now) }
    {
        let _count = draft.char_count();
        let XmlFront { grammar, fault } = read(alloc, format, draft)?;
        let text = text_following(alloc, &grammar, before)?;
        Ok(DraftGrammar {
            gathered: grammar,
            fault,
            text,
        })
    }

    /// Its text.
    pub fn text(&self) -> &Arc<Snapshot>
        ensures { arc_value result.now ≡ characters self.now.grammar }
    {
        &self.text
    }

    /// Its characters, and where they come from.
    pub fn gathered(&self) -> &Gathered
        ensures { result.now ≡ self.now.grammar }
    {
        &self.gathered
    }

    /// The fault of the draft, if it has one: no character behind that is read.
    pub fn fault(&self) -> Option<XmlFault>
        ensures { result ≡ self.now.fault }
    {
        self.fault
    }

    // The place of the first character that begins at an offset of the draft.
    pub(crate) fn place_of(&self, offset: usize) -> Option<usize>
        ensures { result ≡ position (λ c. c.1 == offset) self.now.grammar }
    {
        self.gathered.place_of(offset)
    }

    // Where the character at a place begins in the draft.
    pub(crate) fn origin_of(&self, place: usize) -> Option<usize>
        ensures { result ≡ option_map (λ c. c.1) (slice_get self.now.grammar place) }
    {
        self.gathered.origin_of(place)
    }
}

// What is read of a draft. One in Markdown has no fault.
fn read(alloc: Global, format: Format, draft: &Snapshot) -> Result<XmlFront, AllocError>
    ensures grammar { IfOk result (λ front. front.grammar ≡ grammar_in format draft.now) }
    ensures fault { IfOk result (λ front. front.fault ≡ fault_in format draft.now) }
{
    match format {
        Format::Markdown => Ok(XmlFront {
            grammar: gather_markdown(alloc, draft)?,
            fault: None,
        }),
        Format::Xml => {
            let text = draft.to_text()?;
            gather_front(alloc, text.as_str())
        }
    }
}

// The text of what was gathered, which has no more bytes than the draft.
fn text_of(alloc: Global, gathered: &Gathered) -> Result<Arc<Snapshot>, AllocError>
    requires { length (encode_utf8_all (characters gathered.now)) ≤ max_bytes }
    ensures { IfOk result (λ text. arc_value text ≡ characters gathered.now) }
{
    let text = String::from_str(alloc, gathered.as_str())?;
    match Snapshot::of_text(alloc, text) {
        Ok(snapshot) => Ok(Arc::new(alloc, snapshot)?),
        Err(TextFault::Memory) => Err(AllocError),
        Err(TextFault::TooLarge) => unreachable!(),
    }
}

// The same text, as far as it can be of the text of another grammar.
fn text_following(
    alloc: Global,
    gathered: &Gathered,
    before: &DraftGrammar,
) -> Result<Arc<Snapshot>, AllocError>
    requires { length (encode_utf8_all (characters gathered.now)) ≤ max_bytes }
    ensures { IfOk result (λ text. arc_value text ≡ characters gathered.now) }
{
    let old = before.gathered.as_str();
    if gathered.as_str() == old {
        return before.text.clone();
    }
    match made_of(alloc, &before.text, old, gathered.as_str())? {
        Some(snapshot) => Ok(Arc::new(alloc, snapshot)?),
        None => text_of(alloc, gathered),
    }
}
