//! What is read of a file, by what it is written in.

ghost use Rattle.std.specs.Prelude.{◌≡◌, ◌++◌, ◌∷◌, [], IfErr, IfOk, Ok, OnOk, string_bytes};
ghost use Rattle.std.specs.Str.{chars};
ghost use Rattle.markdown_blocks.specs.Unread as m;
ghost use Rattle.rule_texts.specs.Rules.{AreCounted};
ghost use Rattle.xml_blocks.specs.Unread as xml;
ghost use Rattle.published_blocks.specs.Published.{IsPublished};
ghost use Rattle.markdown_blocks.specs.Fences.{markdown_blocks};
ghost use Rattle.origins.specs.Origins.{characters, gathered_grammar};
ghost use Rattle.xml_blocks.specs.Xml.{grammar_behind, xml_blocks};
ghost use Rattle.findings_files.specs.Contents as spec;
ghost use Rattle.findings_files.specs.Texts.{RefusesPrint, IsTextRefused};

use crate::format::Format;
use ls_lists::List;
use ls_text::Snapshot;
use markdown_blocks::gather_markdown;
use origins::{Aside, Gathered, Lack, Unread};
use published_blocks::{Published, gather_published};
use rule_texts::Counts;
use std::alloc::{AllocError as Memory, Global};
use text_files::FileFault;
use xml_blocks::{XmlFault, gather_xml};

/// What is read of a file.
#[derive(Drop)]
pub struct Content {
    /// Its grammar, left aligned, with the place of each character.
    pub grammar: Gathered,
    /// What of it can't be read, and what nothing marks as ABNF, in its order.
    pub unread: List<Unread>,
}

/// The snapshot of a text.
pub(crate) fn snapshot_of(alloc: Global, text: String) -> Result<Snapshot, FileFault>
    ensures text { IfOk result (λ snapshot. snapshot ≡ chars (string_bytes text)) }
    ensures fault { IfErr result (λ fault. IsTextRefused (chars (string_bytes text)) fault) }
{
    Ok(Snapshot::of_text(alloc, text)?)
}

/// The text of a grammar that was gathered.
pub(crate) fn text_of(alloc: Global, grammar: &Gathered) -> Result<Snapshot, FileFault>
    ensures text { IfOk result (λ text. text ≡ characters grammar.now) }
    ensures fault { IfErr result (λ fault. RefusesPrint grammar.now fault) }
{
    snapshot_of(alloc, String::from_str(alloc, grammar.as_str())?)
}

/// The whole text of a file as one block of grammar.
fn whole(alloc: Global, text: &Snapshot) -> Result<Gathered, Memory>
    ensures { IfOk result (λ grammar. grammar ≡ spec.whole text.now) }
{
    let content = text.to_text()?;
    let mut block = Gathered::new(alloc);
    block.copy(content.as_str(), 0)?;
    let mut grammar = Gathered::new(alloc);
    grammar.add_block(&block, text.char_count())?;
    Ok(grammar)
}

/// The grammar of a draft in XML, or its fault.
fn xml_grammar(alloc: Global, draft: &str) -> Result<Result<Gathered, XmlFault>, FileFault>
    ensures read { IfOk result (λ read. read ≡ grammar_behind [] (xml_blocks (chars draft.now))) }
    ensures fault { IfErr result (λ fault. fault ≡ FileFault.Memory) }
{
    match gather_xml(alloc, draft) {
        Ok(grammar) => Ok(Ok(grammar)),
        Err(XmlFault::Memory) => Err(FileFault::Memory),
        Err(fault) => Ok(Err(fault)),
    }
}

/// The grammar of a file of this format, left aligned, or the fault of a draft in XML. Time goes by the length of the file.
///
/// # Errors
///
/// `NotText` where a run of a published text that begins as a rule does is larger than a text may be, and `Memory` where an
/// allocation is refused.
pub(crate) fn grammar_in(
    alloc: Global,
    format: Format,
    text: &Snapshot,
) -> Result<Result<Gathered, XmlFault>, FileFault>
    ensures grammar { IfOk result (spec.IsGrammarIn format text.now) }
    ensures fault { IfErr result (spec.IsNotGathered format text.now) }
{
    match format {
        Format::Abnf => Ok(Ok(whole(alloc, text)?)),
        Format::Markdown => Ok(Ok(gather_markdown(alloc, text)?)),
        Format::Xml => xml_grammar(alloc, text.to_text()?.as_str()),
        Format::Text => Ok(Ok(gather_published(alloc, text)?.grammar)),
    }
}

/// Whether the text of a block is rules alone.
fn are_rules_alone(alloc: Global, block: &Gathered) -> Result<bool, FileFault>
    ensures are { IfOk result (spec.AreRulesAlone (characters block.now)) }
    ensures fault { IfErr result (RefusesPrint block.now) }
{
    let text = text_of(alloc, block)?;
    Ok(Counts::of(alloc, &text)?.are_rules_alone())
}

/// Whether something is said of a block: that nothing marks it, only if it is rules alone.
fn is_said(alloc: Global, aside: &Aside) -> Result<bool, FileFault>
    ensures says { IfOk result (spec.IsSaid aside.now.unread.lack (characters aside.now.text)) }
    ensures fault { IfErr result (RefusesPrint aside.now.text) }
{
    match aside.unread.lack {
        Lack::BareFence | Lack::Untyped => are_rules_alone(alloc, &aside.text),
        Lack::Elsewhere | Lack::Empty | Lack::Faulty => Ok(true),
    }
}

/// What is said of these blocks.
fn said(alloc: Global, asides: &[Aside]) -> Result<List<Unread>, FileFault>
    ensures said { IfOk result (spec.AreRemarked asides.now) }
    ensures fault { IfErr result (spec.AreRefused asides.now) }
{
    let mut said = List::new(alloc);
    for aside in asides {
        if is_said(alloc, aside)? {
            said.push(aside.unread)?;
        }
    }
    Ok(said)
}

/// What may have to be said of the blocks of a draft in XML.
fn xml_asides(alloc: Global, draft: &str) -> Result<Vec<Aside>, Memory>
    ensures { IfOk result (λ asides. asides.items ≡ xml.unread_elements (chars draft.now)) }
{
    match xml_blocks::unread_blocks(alloc, draft) {
        Ok(asides) => Ok(asides),
        Err(_) => Err(Memory),
    }
}

/// What is read of a draft in Markdown.
fn markdown_content(alloc: Global, draft: &Snapshot) -> Result<Content, FileFault>
    ensures content { IfOk result (λ content. spec.IsContentIn Format.Markdown draft.now (Ok content)) }
    ensures fault { IfErr result (spec.IsNotRead Format.Markdown draft.now) }
{
    let asides = markdown_blocks::unread_blocks(alloc, draft)?;
    let unread = said(alloc, asides.as_slice())?;
    let grammar = gather_markdown(alloc, draft)?;
    Ok(Content { grammar, unread })
}

/// What is read of a draft in XML, or its fault.
fn xml_content(alloc: Global, draft: &Snapshot) -> Result<Result<Content, XmlFault>, FileFault>
    ensures content { IfOk result (spec.IsContentIn Format.Xml draft.now) }
    ensures fault { IfErr result (spec.IsNotRead Format.Xml draft.now) }
{
    let text = draft.to_text()?;
    let grammar = match xml_grammar(alloc, text.as_str())? {
        Ok(grammar) => grammar,
        Err(fault) => return Ok(Err(fault)),
    };
    let asides = xml_asides(alloc, text.as_str())?;
    let unread = said(alloc, asides.as_slice())?;
    Ok(Ok(Content { grammar, unread }))
}

/// What is read of a file of this format, or the fault of a draft in XML. Time goes by the length of the file.
///
/// # Errors
///
/// `NotText` where a block that nothing marks, or a run of a published text that begins as a rule does, is larger than a
/// text may be, and `Memory` where an allocation is refused.
pub(crate) fn content_in(
    alloc: Global,
    format: Format,
    text: &Snapshot,
) -> Result<Result<Content, XmlFault>, FileFault>
    ensures content { IfOk result (spec.IsContentIn format text.now) }
    ensures fault { IfErr result (spec.IsNotRead format text.now) }
{
    match format {
        Format::Abnf => {
            let grammar = whole(alloc, text)?;
            let unread = List::new(alloc);
            Ok(Ok(Content { grammar, unread }))
        }
        Format::Markdown => Ok(Ok(markdown_content(alloc, text)?)),
        Format::Xml => xml_content(alloc, text),
        Format::Text => {
            let Published { grammar, unread } = gather_published(alloc, text)?;
            Ok(Ok(Content { grammar, unread }))
        }
    }
}

/// Whether a file of this format, with this grammar, has none.
pub(crate) fn lacks_grammar(
    alloc: Global,
    format: Format,
    text: &Snapshot,
    grammar: &Gathered,
) -> Result<bool, Memory>
    ensures { IfOk result (spec.LacksGrammar format text.now grammar.now) }
{
    match format {
        Format::Abnf => Ok(Counts::of(alloc, text)?.is_no_grammar()),
        Format::Markdown | Format::Xml | Format::Text => Ok(is_empty(grammar)),
    }
}

/// Whether nothing was gathered.
pub(crate) fn is_empty(grammar: &Gathered) -> bool
    ensures { result ≡ spec.has_no_grammar grammar.now }
{
    grammar.origin_of(0).is_none()
}
