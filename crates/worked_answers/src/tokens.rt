//! Numbers and names, written out by hand.

use abnf_token::{Folded, number_of};
use std::hash::{DefaultHasher, Hash, Hasher};

/// Digits, their base, and the number that they are.
const NUMBERS: &[(&str, u32, Option<u32>)] = &[
    ("4294967295", 10, Some(4294967295)),
    ("4294967296", 10, None),
    ("000000000000fF", 16, Some(255)),
    ("101", 2, Some(5)),
    ("102", 2, None),
    ("", 10, None),
    ("12", 3, None),
    ("1 2", 10, None),
];

#[test]
fn values(rt: HostRuntime) {
    let rows = NUMBERS;
    assert!(rt; rows.len() >= 8);
    for (digits, base, value) in rows {
        assert!(rt; number_of(digits, *base) == *value, "{digits}");
    }
}

fn hash_of(name: &str) -> u64 {
    let mut hasher = DefaultHasher::new();
    Folded(name).hash(&mut hasher);
    hasher.finish()
}

fn is_same(name: &str, other: &str) -> bool {
    Folded(name) == Folded(other)
}

fn is_before(name: &str, other: &str) -> bool {
    Folded(name) < Folded(other)
}

#[test]
fn names_without_case(rt: HostRuntime) {
    assert!(rt; is_same("Ab", "aB") && hash_of("Ab") == hash_of("aB"));
    assert!(rt; is_before("a", "B"));
    assert!(rt; !is_same("A-", "a") && !is_same("\u{c9}", "\u{e9}"));
}
