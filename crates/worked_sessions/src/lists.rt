//! The texts and lists that all crates use.

use ls_lists::{List, Text};
use std::alloc::{AllocError, Global};

/// Whether a text is this one, of three bytes.
fn is_text(text: &Text, want: &str) -> bool {
    text.as_str() == want && text.len() == 3 && !text.is_empty()
}

#[test]
fn texts(rt: HostRuntime) -> Result<(), AllocError> {
    let text = Text::from_str(rt.alloc(), "abc")?;
    assert!(rt; is_text(&text, "abc"));
    assert!(rt; is_text(&text.copy()?, "abc"));
    assert!(rt; is_text(&Text::new(text.into_string()), "abc"));
    Ok(())
}

/// A list of three numbers.
fn three(alloc: Global) -> Result<List<u8>, AllocError> {
    let mut list = List::from_vec(Vec::from_slice(alloc, &[7u8, 3])?);
    list.push(4)?;
    Ok(list)
}

/// Takes the last one of three numbers away.
fn is_cut(list: &mut List<u8>) -> bool {
    if list.len() != 3 {
        return false;
    }
    let second = list.get(1).copied();
    second == Some(3) && list.pop() == Some(4)
}

fn has_copy(list: &List<u8>, want: &[u8]) -> Result<bool, AllocError> {
    Ok(list.copy()?.as_slice() == want)
}

fn is_new_empty(list: &List<u8>) -> bool {
    list.new_alike().is_empty()
}

/// The same numbers, by way of a vector.
fn by_vec(list: List<u8>) -> List<u8> {
    List::from_vec(list.into_vec())
}

/// An empty list.
fn none(alloc: Global) -> List<u8> {
    List::new(alloc)
}

#[test]
fn lists(rt: HostRuntime) -> Result<(), AllocError> {
    let mut list = three(rt.alloc())?;
    assert!(rt; is_cut(&mut list) && is_new_empty(&list));
    assert!(rt; has_copy(&list, &[7, 3])?);
    assert!(rt; by_vec(list).len() == 2);
    assert!(rt; none(rt.alloc()).is_empty());
    Ok(())
}
