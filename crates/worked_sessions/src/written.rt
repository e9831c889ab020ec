//! Two hundred changes with a hover each, whose replies are written out here: each hover tells of the text at its place.

use super::bodies::{CAPABILITIES, DOWN, push, replies};
use super::many::{CHANGES, input};
use super::sessions::{Open, serves};
use ls_server::Status;
use std::alloc::{AllocError, Global};
use std::test::Fail;

// So many times the letter x, which is the shortest string of the rule then.
fn letters(alloc: Global, count: u64) -> Result<String, AllocError> {
    let mut text = String::new(alloc);
    for _ in 0..count {
        text.push('x')?;
    }
    Ok(text)
}

// The answer to the hover on the text `a = i"x"`.
fn push_hovered(alloc: Global, stream: &mut Vec<u8>, i: u64) -> Result<(), Fail> {
    let id = i.saturating_add(1);
    let example = letters(alloc, i)?;
    let example = example.as_str();
    let hovered = format!(in alloc;
        r#"{{"id":{id},"jsonrpc":"2.0","result":{{"contents":{{"kind":"plaintext","value":"shortest length {i}\nexample {example}"}},"range":{{"end":{{"character":1,"line":0}},"start":{{"character":0,"line":0}}}}}}}}"#
    )?;
    push(alloc, stream, hovered.as_str())
}

fn answered(alloc: Global) -> Result<Vec<u8>, Fail> {
    let mut stream = Vec::new(alloc);
    push(alloc, &mut stream, CAPABILITIES)?;
    for i in 1..CHANGES + 1 {
        push_hovered(alloc, &mut stream, i)?;
    }
    push(alloc, &mut stream, DOWN)?;
    Ok(stream)
}

// Each change has the same label.
#[test]
fn each_hover_tells_of_its_own_text(rt: HostRuntime) -> Result<(), Fail> {
    let alloc = rt.alloc();
    let wanted = replies(alloc, &answered(alloc)?)?;
    assert!(rt; wanted.len() == 202);
    for workers in [1, 2, 4, 8] {
        let left = serves(&rt, alloc, input(alloc, 0)?, workers, (0, 0), &Open)?;
        assert!(rt; left.answer == Ok(Status::Clean));
        assert!(rt; replies(alloc, &left.bytes)? == wanted);
    }
    Ok(())
}
