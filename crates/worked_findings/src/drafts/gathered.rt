//! Characters that are gathered by hand.

use origins::Gathered;
use std::alloc::AllocError;

/// Whether these are the characters, and they begin at these places, and none behind the last.
fn has(gathered: &Gathered, text: &str, places: &[usize]) -> bool {
    for (offset, origin) in places.iter().enumerate() {
        if gathered.origin_of(offset) != Some(*origin) {
            return false;
        }
    }
    gathered.as_str() == text && gathered.origin_of(places.len()) == None
}

#[test]
fn gathers(rt: HostRuntime) -> Result<(), AllocError> {
    let mut gathered = Gathered::new(rt.alloc());
    assert!(rt; has(&gathered, "", &[]));
    gathered.copy("a\u{E9}\u{1F600}", 5)?;
    gathered.copy("", 1)?;
    gathered.copy("bc", 8)?;
    gathered.put('&', 20)?;
    gathered.put('d', 2)?;
    assert!(rt; has(&gathered, "a\u{E9}\u{1F600}bc&d", &[5, 6, 7, 8, 9, 20, 2]));
    gathered.clear();
    assert!(rt; has(&gathered, "", &[]));
    gathered.put('e', 3)?;
    assert!(rt; has(&gathered, "e", &[3]));
    Ok(())
}

#[test]
fn adds_blocks(rt: HostRuntime) -> Result<(), AllocError> {
    let mut block = Gathered::new(rt.alloc());
    block.copy("\n \t; c\n", 0)?;
    block.copy("  a\n", 10)?;
    block.copy("   b\n c", 20)?;
    let mut gathered = Gathered::new(rt.alloc());
    gathered.put('x', 7)?;
    gathered.add_block(&block, 30)?;
    assert!(rt;
        has(
            &gathered,
            "x\n; c\na\n b\nc\n",
            &[7, 0, 3, 4, 5, 6, 12, 13, 22, 23, 24, 26, 30],
        )
    );
    Ok(())
}
