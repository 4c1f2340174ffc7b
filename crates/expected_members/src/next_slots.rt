//! The slots of the members that came next the last time.
ghost use Rattle.std.specs.Prelude.{◌<◌};

use std::marker::Model;

/// How many entries there are.
const ENTRIES: usize = 1024;

/// No type has so many slots.
const NO_SLOT: u16 = u16::MAX;

/// After each member the slot that came next the last time, by the entry of the member's slot.
#[derive(Drop)]
pub struct NextSlots {
    /// The slot that came next; `NO_SLOT` where a space stood before its value.
    compact: [u16; ENTRIES],
    /// The slot that last came next with a space before its value.
    spaced: [u16; ENTRIES],
}

// What is stored says nothing of the next member, so clauses see nothing of it.
impl Model for NextSlots {
    ghost Value = { Unit {0} };

    ghost view = { λ _. tt };
}

impl NextSlots {
    /// Creates a table in which nothing is stored. It has no clause: which slot is expected makes no difference.
    #[inline(always)]
    pub fn new() -> NextSlots {
        NextSlots {
            compact: [NO_SLOT; ENTRIES],
            spaced: [NO_SLOT; ENTRIES],
        }
    }

    /// Returns the slot that came next the last time, if no space stood before its value. It has no clause: which slot is
    /// expected makes no difference. Where none is stored it is one that no type has.
    #[inline(always)]
    pub fn compact_slot(&self, entry: usize) -> usize
        requires { entry < 1024 }
    {
        self.compact[entry] as usize
    }

    /// Returns the slot that last came next with a space before its value. It has no clause: which slot is expected makes
    /// no difference. Where none is stored it is one that no type has.
    #[inline(always)]
    pub fn spaced_slot(&self, entry: usize) -> usize
        requires { entry < 1024 }
    {
        self.spaced[entry] as usize
    }

    /// Returns the slot that came next the last time, with or without a space. It has no clause: which slot is expected
    /// makes no difference. Where none is stored it is one that no type has.
    pub fn last_slot(&self, entry: usize) -> usize
        requires { entry < 1024 }
    {
        if self.compact[entry] == NO_SLOT {
            self.spaced_slot(entry)
        } else {
            self.compact_slot(entry)
        }
    }

    /// Stores the slot that came next, and whether a space stood before its value. It has no clause: which slot is
    /// expected makes no difference.
    pub fn put(&mut self, entry: usize, slot: usize, is_spaced: bool)
        requires { entry < 1024 }
    {
        let Ok(slot) = u16::try_from(slot) else {
            return;
        };
        if is_spaced {
            self.compact[entry] = NO_SLOT;
            self.spaced[entry] = slot;
        } else {
            self.compact[entry] = slot;
        }
    }
}
