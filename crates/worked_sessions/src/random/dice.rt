//! Chance that comes again with its seed.

use rand_core::utils::NextWord;
use rand_pcg::Pcg32;

#[derive(Drop)]
pub(crate) struct Dice {
    words: Pcg32,
}

impl Dice {
    pub(crate) fn new(seed: u64) -> Dice {
        Dice {
            words: Pcg32::new(seed, 54),
        }
    }

    /// A number below the count, which is above 0.
    pub(crate) fn below(&mut self, count: u32) -> u32 {
        self.words.next_word() % count.max(1)
    }
}
