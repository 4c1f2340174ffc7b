ghost use Rattle.std.specs.Prelude.{◌≡◌, ◌⊎◌, ◌↔◌, ◌==◌, ◌<◌, ◌%◌, ◌^◌, ℕ, bit_or, IsTrue};
ghost use Rattle.std.specs.Int.{bit_at};
ghost use Rattle.seen_slots.specs.SlotBits.{bits_of};

use super::many_slots::ManySlots;

/// A mark for each slot that was seen, of as many slots as a type may have.
pub trait SeenSlots: Copy {
    // the marks as the bits of a number
    ghost bits: { Self → ℕ };

    // how many slots have a mark
    ghost most: { ℕ };

    /// The marks while no slot was seen.
    fn none() -> Self
        ensures { bits result ≡ 0 };

    /// Marks a slot, whose bit is that of its index within its word.
    fn mark(&mut self, index: usize, bit: u64)
        requires within { index < most }
        requires bit { bit ≡ 2 ^ (index % 64) }
        ensures { bits self.new ≡ bit_or (bits self.old) (2 ^ index) };

    /// Whether a slot was seen.
    fn has(&self, index: usize, bit: u64) -> bool
        requires within { index < most }
        requires bit { bit ≡ 2 ^ (index % 64) }
        ensures { result ≡ (bit_at (bits self.now) index == 1) };

    /// Whether just these slots were seen.
    fn are_all(&self, all: &ManySlots) -> bool
        ensures { IsTrue result ↔ ((k : ℕ) → k < most → bit_at (bits self.now) k ≡ bit_at (bits_of all.now.words) k) };

    /// Whether each of these slots was seen or is one of the others, and no more were.
    fn are_all_but(&self, optional: &ManySlots, all: &ManySlots) -> bool
        ensures { IsTrue result ↔ ((k : ℕ) → k < most → (bit_at (bits_of all.now.words) k ≡ 1)
            ↔ ((bit_at (bits self.now) k ≡ 1) ⊎ (bit_at (bits_of optional.now.words) k ≡ 1))) };
}
