ghost use Rattle.seen_slots.specs.SlotBits.{bits_of};

use super::seen_slots::SeenSlots;

/// How many words there are, each of 64 slots.
const WORDS: usize = 16;

/// The marks of at most 1,024 slots.
#[derive(Clone, Copy, Drop)]
pub struct ManySlots {
    pub words: [u64; WORDS],
}

impl SeenSlots for ManySlots {
    ghost bits = { λ slots. bits_of slots.words };

    ghost most = { 1024 };

    #[inline(always)]
    fn none() -> ManySlots {
        ManySlots { words: [0; WORDS] }
    }

    #[inline(always)]
    fn mark(&mut self, index: usize, bit: u64) {
        self.words[index / 64] |= bit;
    }

    #[inline(always)]
    fn has(&self, index: usize, bit: u64) -> bool {
        self.words[index / 64] & bit != 0
    }

    fn are_all(&self, all: &ManySlots) -> bool {
        for word in 0..WORDS {
            if self.words[word] != all.words[word] {
                return false;
            }
        }
        true
    }

    fn are_all_but(&self, optional: &ManySlots, all: &ManySlots) -> bool {
        for word in 0..WORDS {
            let either = self.words[word] | optional.words[word];
            if either != all.words[word] {
                return false;
            }
        }
        true
    }
}
