//! Ways to call devices: any one, those that cannot fail, and those that log what became of their calls. The bodies are
//! alike, but what each device reports of its calls is proved of each by itself.
ghost use Rattle.std.specs.Prelude.{◌≡◌, ◌<◌, length, IfOk, OnErr, OnOk};
ghost use Rattle.std.specs.Io.{ReadsAtMost, WritesAtMost};
ghost use Rattle.std.specs.Io.KnownBytes.{Keeps, ReadConsumes, WriteAppends};
ghost use Rattle.line_filter.specs.CallLogs.{after_work, after_flush, after_failure};
ghost use Rattle.line_filter.specs.declared.call_log.CallLog.{CallLog};

use super::device::{NotRead, NotWritten, Reads, Writes};
use super::logged::Logged;
use std::io::{Read, Sink, Write};

/// The strategy for any reader and any writer. Nothing is reported about their calls.
#[derive(Debug, Drop)]
pub struct Unlogged;

impl<R: Read> Reads<R> for Unlogged {
    ghost calls = { λ _. CallLog.Unlogged };

    fn read(reader: &mut R, bytes: &mut [u8], held_back: &[u8]) -> Result<usize, NotRead> {
        let _ = held_back;
        match reader.read(bytes) {
            Ok(count) => Ok(count),
            Err(_) => Err(NotRead),
        }
    }
}

impl<W: Write> Writes<W> for Unlogged {
    ghost contents = { W.contents };

    ghost calls = { λ _. CallLog.Unlogged };

    fn write(out: &mut W, bytes: &[u8]) -> Result<usize, NotWritten> {
        match out.write(bytes) {
            Ok(0) => Err(NotWritten),
            Ok(count) => Ok(count),
            Err(_) => Err(NotWritten),
        }
    }

    fn flush(out: &mut W) -> Result<(), NotWritten> {
        match out.flush() {
            Ok(()) => Ok(()),
            Err(_) => Err(NotWritten),
        }
    }
}

/// The strategy for devices that cannot fail. They are bytes in memory, and a writer that takes all and keeps nothing.
#[derive(Debug, Drop)]
pub struct Unfailing;

impl<'b> Reads<&'b [u8]> for Unfailing {
    ghost calls = { λ _. CallLog.Unfailing };

    fn read(reader: &mut &'b [u8], bytes: &mut [u8], held_back: &[u8]) -> Result<usize, NotRead> {
        let _ = held_back;
        match reader.read(bytes) {
            Ok(count) => Ok(count),
            Err(_) => Err(NotRead),
        }
    }
}

impl Writes<Sink> for Unfailing {
    ghost contents = { ⟦<Sink as Write>⟧.contents };

    ghost calls = { λ _. CallLog.Unfailing };

    fn write(out: &mut Sink, bytes: &[u8]) -> Result<usize, NotWritten> {
        match out.write(bytes) {
            Ok(0) => Err(NotWritten),
            Ok(count) => Ok(count),
            Err(_) => Err(NotWritten),
        }
    }

    fn flush(out: &mut Sink) -> Result<(), NotWritten> {
        match out.flush() {
            Ok(()) => Ok(()),
            Err(_) => Err(NotWritten),
        }
    }
}

/// The strategy for devices that log what became of their calls.
#[derive(Debug, Drop)]
pub struct ByRecord;

impl<R: Read> Reads<Logged<R>> for ByRecord {
    ghost calls = { λ r. r.calls };

    fn read(reader: &mut Logged<R>, bytes: &mut [u8], held_back: &[u8]) -> Result<usize, NotRead> {
        let _ = held_back;
        match reader.read(bytes) {
            Ok(count) => Ok(count),
            Err(_) => Err(NotRead),
        }
    }
}

impl<W: Write> Writes<Logged<W>> for ByRecord {
    ghost contents = { λ w. W.contents w.device };

    ghost calls = { λ w. w.calls };

    fn write(out: &mut Logged<W>, bytes: &[u8]) -> Result<usize, NotWritten> {
        match out.write(bytes) {
            Ok(0) => Err(NotWritten),
            Ok(count) => Ok(count),
            Err(_) => Err(NotWritten),
        }
    }

    fn flush(out: &mut Logged<W>) -> Result<(), NotWritten> {
        match out.flush() {
            Ok(()) => Ok(()),
            Err(_) => Err(NotWritten),
        }
    }
}
