use super::many_slots::ManySlots;
use super::seen_slots::SeenSlots;

/// The marks of at most 64 slots, in a word.
#[derive(Clone, Copy, Drop)]
pub struct FewSlots {
    word: u64,
}

impl SeenSlots for FewSlots {
    ghost bits = { λ slots. slots.word };

    ghost most = { 64 };

    #[inline(always)]
    fn none() -> FewSlots {
        FewSlots { word: 0 }
    }

    #[inline(always)]
    fn mark(&mut self, index: usize, bit: u64) {
        self.word |= bit;
    }

    #[inline(always)]
    fn has(&self, index: usize, bit: u64) -> bool {
        self.word & bit != 0
    }

    #[inline(always)]
    fn are_all(&self, all: &ManySlots) -> bool {
        self.word == all.words[0]
    }

    #[inline(always)]
    fn are_all_but(&self, optional: &ManySlots, all: &ManySlots) -> bool {
        self.word | optional.words[0] == all.words[0]
    }
}
