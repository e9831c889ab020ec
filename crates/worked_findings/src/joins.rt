//! Grammars to which rules of others are joined, written out by hand. The last block of a text has the empty line behind its end.

use crate::texts::snapshot;
use findings_files::{FileFault, Snapshot};
use joined_grammars::joined;
use std::alloc::{AllocError, Global};

/// A text, other texts, and what is joined of them.
type Row = (&'static str, &'static [&'static str], &'static str);

const JOINS: &[Row] = &[
    ("a = b\n", &[], "a = b\n"),
    ("", &[], ""),
    ("a = b\n", &["b = \"x\"\n"], "a = b\nb = \"x\"\n\n"),
    ("", &["b = \"x\"\n", ""], "b = \"x\"\n\n"),
    // names are read in any case of letters
    (
        "OWS = SP\n",
        &["ows = HTAB\nRWS = 1*SP\n"],
        "OWS = SP\nRWS = 1*SP\n\n",
    ),
    // an earlier text comes first
    (
        "a = x y\n",
        &["x = \"1\"\n", "X = \"2\"\ny = \"3\"\n"],
        "a = x y\nx = \"1\"\n\ny = \"3\"\n\n",
    ),
    // all blocks of a new name, and none that adds to a name before
    (
        "a = b\n",
        &["b = \"x\"\nc = \"y\"\nb =/ \"z\"\nb = \"w\"\n"],
        "a = b\nb = \"x\"\nc = \"y\"\nb =/ \"z\"\nb = \"w\"\n\n",
    ),
    (
        "b = \"q\"\n",
        &["b =/ \"z\"\nc = b\n"],
        "b = \"q\"\nc = b\n\n",
    ),
    ("", &["b = \"x\"\n", "b =/ \"y\"\n"], "b = \"x\"\n\n"),
    // a name that adds in the text is its own, and so is one in a faulty block
    ("b =/ \"q\"\n", &["b = \"z\"\n"], "b =/ \"q\"\n"),
    ("a = ?\n", &["a = \"x\"\nb = a\n"], "a = ?\nb = a\n\n"),
    // blocks without a head
    (
        "= b\n",
        &["= \"x\"\nb = \"y\"\n?\n", "= c\nc = \"z\"\n"],
        "= b\nb = \"y\"\nc = \"z\"\n\n",
    ),
    // lines that continue a rule, comments, and line ends of each kind
    (
        "E = x\n",
        &["; front\nb = c\r\n  / d\r; of b\n\ne = f\n"],
        "E = x\nb = c\n  / d\n; of b\n\n",
    ),
];

fn snapshots(alloc: Global, texts: &[&str]) -> Result<Vec<Snapshot>, FileFault> {
    let mut found = Vec::new(alloc);
    for text in texts {
        found
            .push(snapshot(alloc, text)?)
            .map_err(AllocError::from)?;
    }
    Ok(found)
}

/// What is joined of a text and others.
fn joined_of(alloc: Global, told: &str, others: &[&str]) -> Result<String, FileFault> {
    let told = snapshot(alloc, told)?;
    let others = snapshots(alloc, others)?;
    Ok(joined(alloc, &told, others.as_slice())?)
}

#[test]
fn joins_rules(rt: HostRuntime) -> Result<(), FileFault> {
    let rows = JOINS;
    assert!(rt; rows.len() >= 13);
    for (told, others, text) in rows {
        let found = joined_of(rt.alloc(), told, others)?;
        assert!(rt; found.as_str() == *text, "{told}");
    }
    Ok(())
}
