//! What no line of `abnf_findings` shows of files.

use crate::texts::snapshot;
use findings_files::{FileFault, Format, Known, print_as};

#[test]
fn a_draft_at_fault_leaves_what_is_known(rt: HostRuntime) -> Result<(), FileFault> {
    let mut known = Known::new(rt.alloc());
    let other = snapshot(rt.alloc(), "b = \"x\"\n")?;
    known.add(rt.alloc(), "k", Format::Abnf, &other)?;
    let draft = snapshot(rt.alloc(), "<rfc><!-- a")?;
    let added = known.add(rt.alloc(), "k", Format::Xml, &draft);
    assert!(rt; matches!(added, Err(FileFault::NotText)));
    let text = snapshot(rt.alloc(), "a = b\n")?;
    let found = print_as(rt.alloc(), "f", Format::Abnf, &text, &known)?;
    assert!(rt; found.lines.as_str() == "");
    Ok(())
}

#[test]
fn a_file_without_a_name_is_a_grammar(rt: HostRuntime) {
    assert!(rt; Format::of_file("") == Format::Abnf);
}
