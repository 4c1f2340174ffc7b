//! How devices are called, and what they report about their calls. Whatever is said of failed calls is said by this.
ghost use Rattle.std.specs.Prelude.{◌≡◌, ◌<◌, ◌≤◌, ℕ, List, [], Option, length, IfOk, OnErr, OnOk};
ghost use Rattle.std.specs.Io.{ReadsAtMost, WritesAtMost};
ghost use Rattle.std.specs.Io.KnownBytes.{Keeps, ReadConsumes, WriteAppends};
ghost use Rattle.line_filter.specs.CallLogs.{after_work, after_flush, after_failure};
ghost use Rattle.line_filter.specs.declared.call_log.CallLog.{CallLog};

use super::call_log::CallLog;
use std::io::Read;
use thiserror::Error;

/// A read failed.
#[derive(Debug, Drop, Error)]
#[error("read")]
pub struct NotRead;

/// A write or a flush failed, or a write took none of what it was given.
#[derive(Debug, Drop, Error)]
#[error("write")]
pub struct NotWritten;

/// The way to read a reader, and what it reports about its calls. Every error is a failure, an interrupted call too.
///
/// What it reports must be the device's own record, made where the device is called and nowhere else: the clauses are
/// worth as much as that.
pub trait Reads<R: Read> {
    // What the reader reports about its calls so far.
    ghost calls: { R → CallLog };

    /// Calls `read` once, for some bytes, and for 65,536 at most. `held_back` is the kept text that is not written yet.
    /// It is empty: it is passed so that nobody can read before what is kept is written.
    fn read(reader: &mut R, bytes: &mut [u8], held_back: &[u8]) -> Result<usize, NotRead>
        requires none_held_back { held_back.now ≡ [] }
        requires some { 0 < length bytes.old }
        requires few { length bytes.old ≤ 65536 }
        ensures bound { ReadsAtMost result bytes.new }
        ensures bytes { ReadConsumes (R.remaining reader.old) (R.remaining reader.new) result bytes.new }
        ensures worked { OnOk result (calls reader.new ≡ after_work (calls reader.old)) }
        ensures failed { OnErr result (calls reader.new ≡ after_failure (calls reader.old)) };
}

/// The way to write to a writer and flush it, and what the writer reports of its bytes and its calls.
///
/// Every error is a failure, an interrupted call too.
///
/// As with [`Reads`], what it reports must be the device's own record.
pub trait Writes<W> {
    // The bytes that the writer holds, where it reports them.
    ghost contents: { W → Option (List ℕ) };

    // What the writer reports about its calls so far.
    ghost calls: { W → CallLog };

    /// Calls `write` once, for some bytes. Where it takes none of them it has failed.
    fn write(out: &mut W, bytes: &[u8]) -> Result<usize, NotWritten>
        requires some { 0 < length bytes.now }
        ensures some { IfOk result (λ count. 0 < count) }
        ensures bound { WritesAtMost result bytes.now }
        ensures bytes { WriteAppends (contents out.old) (contents out.new) result bytes.now }
        ensures worked { OnOk result (calls out.new ≡ after_work (calls out.old)) }
        ensures failed { OnErr result (calls out.new ≡ after_failure (calls out.old)) };

    /// Calls `flush` once.
    fn flush(out: &mut W) -> Result<(), NotWritten>
        ensures bytes { Keeps (contents out.old) (contents out.new) }
        ensures flushed { OnOk result (calls out.new ≡ after_flush (calls out.old)) }
        ensures failed { OnErr result (calls out.new ≡ after_failure (calls out.old)) };
}
