//! The limits of a session.

use super::steps::opened;
use ls_desk::{Desk, DeskFault, snapshot_of_text};
use ls_lists::{List, Text};
use ls_text::{Edit, Encoding, MAX_BYTES, Range};
use one_document::{START, change, open, symbols};
use std::alloc::{AllocError, Global};
use std::test::Fail;

// Opens a document whose name is a number.
fn open_one(desk: &mut Desk, alloc: Global, number: u32) -> Result<u64, DeskFault> {
    let uri = Text::new(format!(in alloc; "file:///{number}")?);
    desk.did_open(uri, 1, Text::from_str(alloc, "")?, Encoding::Utf16)
}

// Opens so many documents, each with a name of its own.
fn open_many(desk: &mut Desk, alloc: Global, count: u32) -> Result<u64, DeskFault> {
    let mut version = 0;
    for number in 0..count {
        version = open_one(desk, alloc, number)?;
    }
    Ok(version)
}

#[test]
fn of_documents(rt: HostRuntime) -> Result<(), Fail> {
    let mut desk = Desk::new(rt.alloc(), 1_000_000, 1_000_000);
    let version = open_many(&mut desk, rt.alloc(), 256);
    let more = open(&mut desk, rt.alloc(), "");
    drop(desk);
    assert_eq!(rt; version?, 256);
    assert!(rt; more == Err(DeskFault::TooManyDocuments));
    Ok(())
}

// Opens a document whose text is made already.
fn open_made(desk: &mut Desk, alloc: Global, uri: &str) -> Result<u64, DeskFault> {
    let text = snapshot_of_text(alloc, Text::from_str(alloc, "")?)?;
    desk.open_shared(Text::from_str(alloc, uri)?, 1, text, Encoding::Utf16)
}

#[test]
fn of_documents_whose_text_is_made(rt: HostRuntime) -> Result<(), Fail> {
    let mut desk = Desk::new(rt.alloc(), 1_000_000, 1_000_000);
    let first = open_made(&mut desk, rt.alloc(), "file:///g");
    let again = open_made(&mut desk, rt.alloc(), "file:///g");
    let others = open_many(&mut desk, rt.alloc(), 255);
    let more = open_made(&mut desk, rt.alloc(), "file:///h");
    drop(desk);
    assert_eq!(rt; first?, 1);
    assert!(rt; again == Err(DeskFault::AlreadyOpen));
    assert_eq!(rt; others?, 256);
    assert!(rt; more == Err(DeskFault::TooManyDocuments));
    Ok(())
}

// Asks so many requests, with ids from 0, and then with an id that waits.
fn ask_many(desk: &mut Desk, alloc: Global, count: i64) -> Result<bool, DeskFault> {
    let begun = opened(desk, alloc)?;
    for id in 0..count {
        symbols(desk, alloc, id)?;
    }
    Ok(begun && symbols(desk, alloc, 0) == Err(DeskFault::IdInUse))
}

#[test]
fn of_requests(rt: HostRuntime) -> Result<(), Fail> {
    let mut desk = Desk::new(rt.alloc(), 1_000_000, 1_000_000);
    let asked = ask_many(&mut desk, rt.alloc(), 1_023);
    let last = symbols(&mut desk, rt.alloc(), 1_023);
    let more = symbols(&mut desk, rt.alloc(), 1_024);
    drop(desk);
    assert!(rt; asked?);
    assert_eq!(rt; last?, 1_025);
    assert!(rt; more == Err(DeskFault::TooManyWaiting));
    Ok(())
}

// So many letters.
fn letters(alloc: Global, count: usize) -> Result<String, AllocError> {
    let mut text = String::new(alloc);
    for _ in 0..count {
        text.push('a')?;
    }
    Ok(text)
}

fn open_letters(desk: &mut Desk, alloc: Global, count: usize) -> Result<u64, DeskFault> {
    let text = letters(alloc, count)?;
    open(desk, alloc, text.as_str())
}

// One letter more at the start.
fn insert(desk: &mut Desk, alloc: Global) -> Result<Option<u64>, DeskFault> {
    let range = Some(Range {
        start: START,
        end: START,
    });
    let text = Text::from_str(alloc, "a")?;
    let mut edits = List::new(alloc);
    edits.push(Edit { range, text })?;
    desk.did_change(Text::from_str(alloc, "file:///g")?, 2, edits)
}

#[test]
fn of_a_text(rt: HostRuntime) -> Result<(), Fail> {
    let mut desk = Desk::new(rt.alloc(), 1_000_000, 1_000_000);
    let large = open_letters(&mut desk, rt.alloc(), MAX_BYTES + 1);
    let fits = open_letters(&mut desk, rt.alloc(), MAX_BYTES);
    let grown = insert(&mut desk, rt.alloc());
    let closed = change(&mut desk, rt.alloc(), "");
    drop(desk);
    assert!(rt; large == Err(DeskFault::TooLarge));
    assert_eq!(rt; fits?, 1);
    assert!(rt; grown? == None);
    assert!(rt; closed == Err(DeskFault::NotOpen));
    Ok(())
}
