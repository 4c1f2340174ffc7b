//! What a run has read last, for what a person hears of a row at fault.
use collection_items::item_lines;
use std::alloc::Global;
use std::cell::Cell;

/// How much is kept of what a run reads.
#[derive(Clone, Copy)]
pub enum Keeping {
    Nothing,
    /// The lines of the last read. A reader of lines has given all lines before them.
    Lines,
    /// A whole document.
    Document,
}

/// A line among the bytes that are kept.
#[derive(Clone, Copy)]
struct KeptLine {
    /// How many lines come before it there.
    index: u64,
    /// Where it begins.
    offset: usize,
}

const FIRST_LINE: KeptLine = KeptLine {
    index: 0,
    offset: 0,
};

/// What a run has read last of its rows. So a row is shown as the run has read it, also where it cannot be read again.
#[derive(Drop)]
pub struct RecentRows {
    alloc: Global,
    /// Whether anything is to be kept.
    is_wanted: bool,
    keeping: Cell<Keeping>,
    bytes: Cell<Vec<u8>>,
    /// How many lines come before those bytes.
    before: Cell<u64>,
    /// The last of the lines that are kept, which may have no end yet.
    last: Cell<KeptLine>,
    /// The line that was asked for last: those after it are looked for from there.
    asked: Cell<KeptLine>,
}

/// The last line once more bytes come after so many.
fn last_line(last: KeptLine, before: usize, bytes: &[u8]) -> KeptLine {
    let mut last = last;
    for (offset, byte) in bytes.iter().enumerate() {
        if *byte == b'\n' {
            last = KeptLine {
                index: last.index.saturating_add(1),
                offset: before.saturating_add(offset).saturating_add(1),
            };
        }
    }
    last
}

/// How many line feeds there are.
pub fn line_feeds(bytes: &[u8]) -> u64 {
    last_line(FIRST_LINE, 0, bytes).index
}

/// One text after another, if there is memory for both.
fn joined(alloc: Global, first: &[u8], second: &[u8]) -> Option<Vec<u8>> {
    let mut both = Vec::new(alloc);
    both.extend_from_slice(first).ok()?;
    both.extend_from_slice(second).ok()?;
    Some(both)
}

/// The line from an offset on, without its line feed.
fn line_from(bytes: &[u8], offset: usize) -> Option<&[u8]> {
    bytes.get(offset..)?.split(|byte| *byte == b'\n').next()
}

/// The line of that index, from a line on that comes no later.
fn line_after(bytes: &[u8], line: KeptLine, index: u64) -> Option<KeptLine> {
    let mut line = line;
    for _ in line.index..index {
        let length = line_from(bytes, line.offset)?.len();
        line = KeptLine {
            index: line.index.saturating_add(1),
            offset: line.offset.saturating_add(length).saturating_add(1),
        };
    }
    Some(line)
}

impl RecentRows {
    /// Nothing yet. It stays so if nothing is wanted.
    pub fn new(alloc: Global, is_wanted: bool) -> RecentRows {
        RecentRows {
            alloc,
            is_wanted,
            keeping: Cell::new(Keeping::Nothing),
            bytes: Cell::new(Vec::new(alloc)),
            before: Cell::new(0),
            last: Cell::new(FIRST_LINE),
            asked: Cell::new(FIRST_LINE),
        }
    }

    /// Begins with rows that are read from their first line on.
    pub fn begin(&self, keeping: Keeping) {
        self.keeping.set(if self.is_wanted {
            keeping
        } else {
            Keeping::Nothing
        });
        self.bytes.set(Vec::new(self.alloc));
        self.before.set(0);
        self.last.set(FIRST_LINE);
        self.asked.set(FIRST_LINE);
    }

    /// Takes all that is kept.
    pub fn taken(&self) -> Vec<u8> {
        self.bytes.replace(Vec::new(self.alloc))
    }

    /// What is kept without the lines before the last, which have been given. Nothing is copied within a line.
    fn last_taken(&self) -> Option<Vec<u8>> {
        let held = self.taken();
        let last = self.last.get();
        if last.offset == 0 {
            return Some(held);
        }
        self.before
            .set(self.before.get().saturating_add(last.index));
        self.last.set(FIRST_LINE);
        self.asked.set(FIRST_LINE);
        joined(self.alloc, held.get(last.offset..)?, &[])
    }

    /// Keeps more bytes after some, or nothing any more where there is no memory for them.
    fn keep(&self, held: Vec<u8>, bytes: &[u8]) {
        let mut held = held;
        let before = held.len();
        match held.extend_from_slice(bytes) {
            Ok(()) => {
                self.bytes.set(held);
                self.last.set(last_line(self.last.get(), before, bytes));
            }
            Err(_) => self.keeping.set(Keeping::Nothing),
        }
    }

    /// Takes note of bytes after lines that are read.
    #[inline(never)]
    fn note_lines(&self, bytes: &[u8]) {
        match self.last_taken() {
            Some(held) => self.keep(held, bytes),
            None => self.keeping.set(Keeping::Nothing),
        }
    }

    /// Takes note of bytes that were read.
    pub fn note(&self, bytes: &[u8]) {
        match self.keeping.get() {
            Keeping::Nothing => {}
            Keeping::Lines => self.note_lines(bytes),
            Keeping::Document => self.keep(self.taken(), bytes),
        }
    }

    /// A copy of the line of that index among bytes that were taken.
    fn line_in(&self, held: &[u8], index: u64) -> Option<Vec<u8>> {
        let asked = self.asked.get();
        let from = if asked.index <= index {
            asked
        } else {
            FIRST_LINE
        };
        let found = line_after(held, from, index)?;
        self.asked.set(found);
        joined(self.alloc, line_from(held, found.offset)?, &[])
    }

    /// A copy of the entity of that number in a document.
    fn entity_in(&self, document: &[u8], number: u64) -> Option<Vec<u8>> {
        let lines = item_lines(self.alloc, document).ok()??;
        let found = line_after(lines.as_slice(), FIRST_LINE, number.checked_sub(1)?)?;
        joined(self.alloc, line_from(lines.as_slice(), found.offset)?, &[])
    }

    /// A copy of the row of that number among bytes that were taken, if they have it.
    fn row_in(&self, held: &[u8], number: u64) -> Option<Vec<u8>> {
        match self.keeping.get() {
            Keeping::Nothing => None,
            Keeping::Lines => {
                let index = number.checked_sub(1)?.checked_sub(self.before.get())?;
                self.line_in(held, index)
            }
            Keeping::Document => self.entity_in(held, number),
        }
    }

    /// A copy of the row of that number, counted from 1: a line, or an entity of a collection.
    pub fn row(&self, number: u64) -> Option<Vec<u8>> {
        let held = self.taken();
        let row = self.row_in(held.as_slice(), number);
        self.bytes.set(held);
        row
    }
}
