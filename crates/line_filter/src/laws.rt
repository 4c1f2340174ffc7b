//! Laws of readers, writers and judged lines, as the contracts of functions that do nothing.
ghost use Rattle.std.specs.Io.Cursor.{cursor_inner};
ghost use Rattle.std.specs.Prelude.{◌≡◌, ◌<◌, ℕ, List, Some};
ghost use Rattle.line_filter.specs.declared.tally.Tally.{Tally as TallyModel};
ghost use Rattle.line_filter.specs.CallLogs.{NeverFails};
ghost use Rattle.line_filter.specs.Kept.{Filters, LineClass, StopsAt};
ghost use Rattle.line_filter.specs.LineItems.{IsFoundOf, lines};
ghost use Rattle.line_filter.specs.Lines.{lines_of};
ghost use Rattle.line_filter.specs.PartRuns.{ArePassed};
ghost use Rattle.line_filter.specs.Parts.{IsSoughtOver, lines_up_to};
ghost use Rattle.line_filter.specs.Once.{IsFaulty, JudgesItemsOnce, JudgesOnce, kind_found};
ghost use Rattle.line_filter.specs.ItemIndexes.{indexed_items};

use super::device::{Reads, Writes};
use super::judge::{Judge, SaysOfItems};
use super::logged::Logged;
use super::strategies::{ByRecord, Unfailing, Unlogged};
use std::io::{Cursor, Read, Seek, Sink, Write};

/// A slice of bytes reports, as a reader, what remains of it: all its bytes. A vector of bytes reports, as a writer,
/// what it holds. So what [`filter_reader`](super::filter_reader) says of readers and writers that report their bytes
/// holds of these.
pub fn slices_report_their_bytes(bytes: &[u8], out: &Vec<u8>)
    ensures reader { ⟦<&'static [u8] as Read>⟧.remaining bytes.entry ≡ Some bytes.now }
    ensures writer { ⟦<Vec<u8> as Write>⟧.contents out.now ≡ Some out.now.items }
{}

/// A law: strategies report of their devices what those are.
///
/// [`Unlogged`] and [`ByRecord`] report the bytes that the writer reports. Devices of [`Unfailing`] never fail.
pub fn strategies_report_their_devices<W: Write>(out: &W, logged: &Logged<W>)
    ensures unlogged { ⟦<Unlogged as Writes<W>>⟧.contents out.now ≡ W.contents out.now }
    ensures by_record { ⟦<ByRecord as Writes<Logged<W>>>⟧.contents logged.now ≡ W.contents logged.now.device }
    ensures reader { NeverFails ⟦<Unfailing as Reads<&'static [u8]>>⟧.calls }
    ensures writer { NeverFails ⟦<Unfailing as Writes<Sink>>⟧.calls }
{}

/// At most one line of an input is the first at fault. That is where the judge says judgments of one kind of each line;
/// then one kind is found of a line, and none is at fault where all pass. One text is kept, of all lines or of those
/// before the first at fault; all lines have one tally.
pub fn lines_stop_once<J: Judge>(judge: &J)
    requires { JudgesOnce (J.says judge.now) }
    ensures found { (line : List ℕ) (f g : LineClass J.Fault)
        → IsFoundOf (J.says judge.now) line f → IsFoundOf (J.says judge.now) line g → kind_found f ≡ kind_found g }
    ensures stopped { (bytes text other : List ℕ) (m n : ℕ) (f g : LineClass J.Fault) → IsFaulty f → IsFaulty g
        → (a : StopsAt (lines (J.says judge.now) bytes) text m f)
        → (b : StopsAt (lines (J.says judge.now) bytes) other n g) → (m ≡ n) × (text ≡ other) × (a.bad ≡ b.bad) }
    ensures filtered { (bytes text other : List ℕ) (tally : TallyModel) (n : ℕ) (f : LineClass J.Fault)
        → Filters (lines (J.says judge.now) bytes) text tally → IsFaulty f
        → StopsAt (lines (J.says judge.now) bytes) other n f → ⊥ }
    ensures kept { (bytes text other : List ℕ) (m n : TallyModel) → Filters (lines (J.says judge.now) bytes) text m
        → Filters (lines (J.says judge.now) bytes) other n → (text ≡ other) × (m ≡ n) }
{}

/// A law: however many equal parts a text has, they have each of its lines once, in their order.
pub fn parts_have_each_line_once()
    ensures { (count : ℕ) (bytes : List ℕ) → 0 < count → lines_up_to count count bytes ≡ lines_of bytes }
{}

/// A law: what is kept of the parts of a text, one after another, is what is kept of the text.
///
/// The tallies add up, too. That is where the judge says judgments of one kind of each line, and no line is at fault.
pub fn parts_keep_what_all_keeps<J: Judge>(judge: &J)
    requires { JudgesOnce (J.says judge.now) }
    ensures { (count : ℕ) (bytes text other : List ℕ) (m n : TallyModel) → 0 < count
        → ArePassed (J.says judge.now) count count bytes text m
        → Filters (lines (J.says judge.now) bytes) other n → (text ≡ other) × (m ≡ n) }
{}

/// A law: a cursor over a vector can be sought over its bytes, as [`part_of`](super::part_of) has it.
pub fn cursors_can_be_sought(cursor: &Cursor<Vec<u8>>)
    ensures { IsSoughtOver ⟦<Cursor<Vec<u8>> as Read>⟧.remaining ⟦<Cursor<Vec<u8>> as Seek>⟧.stream_position
        ⟦<Cursor<Vec<u8>> as Seek>⟧.stream_bytes cursor.now (cursor_inner cursor.now).items }
{}

/// A law: of the items of a list at most one is the first at fault. Judgments of one kind are said of each item, and
/// none is at fault where all pass. One text is kept, of all items or of those before the first at fault; all items
/// have one tally.
pub fn items_stop_once<J: SaysOfItems>(judge: &J)
    requires { JudgesItemsOnce (J.says judge.now) }
    ensures stopped { (items : List J.Item) (text other : List ℕ) (m n : ℕ) (f g : LineClass J.Fault)
        → IsFaulty f → IsFaulty g → (a : StopsAt (indexed_items (J.says judge.now) items) text m f)
        → (b : StopsAt (indexed_items (J.says judge.now) items) other n g)
        → (m ≡ n) × (text ≡ other) × (a.bad ≡ b.bad) }
    ensures filtered { (items : List J.Item) (text other : List ℕ) (tally : TallyModel) (n : ℕ) (f : LineClass J.Fault)
        → Filters (indexed_items (J.says judge.now) items) text tally → IsFaulty f
        → StopsAt (indexed_items (J.says judge.now) items) other n f → ⊥ }
    ensures kept { (items : List J.Item) (text other : List ℕ) (m n : TallyModel)
        → Filters (indexed_items (J.says judge.now) items) text m
        → Filters (indexed_items (J.says judge.now) items) other n → (text ≡ other) × (m ≡ n) }
{}
