//! A document that comes byte by byte.
ghost use Rattle.std.specs.Prelude.{◌≡◌, ◌+◌, ◌∷◌, ◌++◌, ◌<◌, ◌≤◌, ℕ, [], OnOk, vec_capacity, vec_len};
ghost use Rattle.collection_reader.specs.private.ItemScan.{back_step, front_step, item_step};
ghost use Rattle.collection_reader.specs.private.ItemText.{HasRoom, after_back, after_front, after_item, bytes_of, scanned, step, unread};

use crate::item_scan::{Phase, Scan, back_step, front_step, item_step};
use crate::nest::{Mode, Nest};
use std::alloc::{AllocError, Global};

/// What has come of a document but for its items: how far the scan has come, and the bytes before and after the items.
#[derive(Drop)]
pub(crate) struct Document {
    pub(crate) scan: Scan,
    pub(crate) front: Vec<u8>,
    pub(crate) back: Vec<u8>,
}

impl Document {
    /// One of which nothing has come.
    pub(crate) fn new(alloc: Global) -> Document
        ensures { scanned result ≡ unread }
    {
        Document {
            scan: Scan {
                phase: Phase::Front,
                nest: Nest {
                    depth: 0,
                    mode: Mode::Outside,
                },
                name: 0,
                is_named: false,
            },
            front: Vec::new(alloc),
            back: Vec::new(alloc),
        }
    }

    /// Makes room for so many bytes more around the items.
    pub(crate) fn reserve(&mut self, count: usize) -> Result<(), AllocError>
        ensures same { scanned self.new ≡ scanned self.old }
        ensures room { OnOk result (HasRoom self.new count) }
    {
        self.front.reserve(count)?;
        self.back.reserve(count)
    }

    /// Keeps a byte that stands before the items.
    fn keep_front(&mut self, byte: u8)
        requires { vec_len self.old.front < vec_capacity self.old.front }
        ensures front { self.new.front.items ≡ self.old.front.items ++ byte ∷ [] }
        ensures len { vec_len self.new.front ≡ vec_len self.old.front + 1 }
        ensures capacity { vec_capacity self.old.front ≤ vec_capacity self.new.front }
        ensures back { self.new.back ≡ self.old.back }
        ensures scan { self.new.scan ≡ self.old.scan }
    {
        match self.front.push(byte) {
            Ok(()) => {}
            Err(_) => unreachable!(),
        }
    }

    /// Keeps a byte that stands after the items.
    fn keep_back(&mut self, byte: u8)
        requires { vec_len self.old.back < vec_capacity self.old.back }
        ensures back { self.new.back.items ≡ self.old.back.items ++ byte ∷ [] }
        ensures len { vec_len self.new.back ≡ vec_len self.old.back + 1 }
        ensures capacity { vec_capacity self.old.back ≤ vec_capacity self.new.back }
        ensures front { self.new.front ≡ self.old.front }
        ensures scan { self.new.scan ≡ self.old.scan }
    {
        match self.back.push(byte) {
            Ok(()) => {}
            Err(_) => unreachable!(),
        }
    }

    /// Takes the next byte; what is put for it in the lines of the items.
    #[inline(always)]
    pub(crate) fn take(&mut self, byte: u8) -> Option<u8>
        requires { HasRoom self.old 1 }
        ensures scanned { scanned self.new ≡ (step (scanned self.old) byte).scanned }
        ensures put { bytes_of result ≡ (step (scanned self.old) byte).put }
        ensures room { (count : ℕ) → HasRoom self.old (count + 1) → HasRoom self.new count }
    {
        match self.scan.phase {
            Phase::Front => self.take_front(byte),
            Phase::Back => self.take_back(byte),
            Phase::Over => None,
            _ => self.take_item(byte),
        }
    }

    /// Takes a byte before the items.
    fn take_front(&mut self, byte: u8) -> Option<u8>
        requires { HasRoom self.old 1 }
        ensures scanned { scanned self.new
            ≡ (after_front (scanned self.old) byte (front_step self.old.scan self.old.front.items byte)).scanned }
        ensures put { bytes_of result
            ≡ (after_front (scanned self.old) byte (front_step self.old.scan self.old.front.items byte)).put }
        ensures room { (count : ℕ) → HasRoom self.old (count + 1) → HasRoom self.new count }
    {
        let step = front_step(self.scan, self.front.as_slice(), byte);
        self.keep_front(byte);
        self.scan = step.scan;
        step.put
    }

    /// Takes a byte after the items.
    fn take_back(&mut self, byte: u8) -> Option<u8>
        requires { HasRoom self.old 1 }
        ensures scanned { scanned self.new
            ≡ (after_back (scanned self.old) byte (back_step self.old.scan byte)).scanned }
        ensures put { bytes_of result ≡ (after_back (scanned self.old) byte (back_step self.old.scan byte)).put }
        ensures room { (count : ℕ) → HasRoom self.old (count + 1) → HasRoom self.new count }
    {
        let step = back_step(self.scan, byte);
        self.keep_back(byte);
        self.scan = step.scan;
        step.put
    }

    /// Takes a byte between the brackets of the array, or the one that closes it.
    #[inline(always)]
    fn take_item(&mut self, byte: u8) -> Option<u8>
        requires { HasRoom self.old 1 }
        ensures scanned { scanned self.new
            ≡ (after_item (scanned self.old) byte (item_step self.old.scan byte)).scanned }
        ensures put { bytes_of result ≡ (after_item (scanned self.old) byte (item_step self.old.scan byte)).put }
        ensures room { (count : ℕ) → HasRoom self.old (count + 1) → HasRoom self.new count }
    {
        let step = item_step(self.scan, byte);
        self.scan = step.scan;
        match step.scan.phase {
            Phase::Back => self.keep_back(byte),
            _ => {}
        }
        step.put
    }
}
