//! What may have to be said of drafts, in rows.

use ls_text::{Snapshot, TextFault};
use origins::{Aside, Lack};
use std::alloc::Global;
use xml_blocks::XmlFault;

/// Where a block begins, what may have to be said of it, and its text, where that decides.
pub type Said = (usize, Lack, &'static str);

/// A draft, and what may have to be said of its blocks.
pub type Row = (&'static str, &'static [Said]);

/// Whether this may have to be said, in this order.
fn are_said(found: &[Aside], wanted: &[Said]) -> bool {
    if found.len() != wanted.len() {
        return false;
    }
    for (aside, (at, lack, text)) in found.iter().zip(wanted) {
        let unread = aside.unread;
        if unread.at != *at || unread.lack != *lack || aside.text.as_str() != *text {
            return false;
        }
    }
    true
}

/// Whether this may have to be said of a draft in RFCXML.
pub fn is_said_of_xml(alloc: Global, draft: &str, wanted: &[Said]) -> Result<bool, XmlFault> {
    let found = xml_blocks::unread_blocks(alloc, draft)?;
    Ok(are_said(found.as_slice(), wanted))
}

/// Whether this may have to be said of a draft in Markdown.
pub fn is_said_of_markdown(alloc: Global, draft: &str, wanted: &[Said]) -> Result<bool, TextFault> {
    let text = Snapshot::of_text(alloc, String::from_str(alloc, draft)?)?;
    let found = markdown_blocks::unread_blocks(alloc, &text)?;
    Ok(are_said(found.as_slice(), wanted))
}
