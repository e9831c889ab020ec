//! How tables of names hash.

use std::hash::{BuildHasher, FoldHasher, Hasher};

/// How a table hashes its names: each by a hasher to which a number, the seed, was fed before. Which names meet in the
/// table depends on the seed: names that are chosen to meet with one seed stand elsewhere with another. Any seed is
/// right.
#[derive(Clone, Copy)]
pub struct Seeded {
    seeded: FoldHasher,
}

impl Seeded {
    /// Hashes with this seed.
    pub fn by(seed: u64) -> Seeded {
        let mut seeded = FoldHasher::default();
        seeded.write_u64(seed);
        Seeded { seeded }
    }
}

impl BuildHasher for Seeded {
    type Hasher = FoldHasher;

    ghost build_hasher = { λ s. s.seeded };

    /// A hasher to which the seed was fed.
    fn build_hasher(&self) -> FoldHasher {
        self.seeded
    }
}
