ghost use Rattle.std.specs.Prelude.{◌≡◌, ◌<◌, [], ◌++◌, length, OnOk, OnErr};
ghost use Rattle.std.specs.Io.KnownBytes.{Appends};
ghost use Rattle.line_filter.specs.CallLogs.{StaysWell, FailsLast};
ghost use Rattle.line_filter.specs.Growth.{WritesFront};
ghost use Rattle.line_filter.specs.Lines.{text_of_line};
ghost use Rattle.line_filter.specs.private.HeldBack.{WritesBut};

use super::device::{NotWritten, Writes};
use std::alloc::AllocError;

/// How many bytes are held back before they are written together.
const HELD_BACK: usize = 65_536;

/// Writes all the bytes, by as many calls as the writer needs. Unlike `write_all`, it takes every error as a failure,
/// an interrupted write too, and calls nothing after it.
pub fn write_out<W, T: Writes<W>>(out: &mut W, bytes: &[u8]) -> Result<(), NotWritten>
    ensures ok { OnOk result (Appends (T.contents out.old) (T.contents out.new) bytes.now) }
    ensures err { OnErr result (WritesFront (T.contents out.old) (T.contents out.new) bytes.now) }
    ensures some { OnErr result (0 < length bytes.now) }
    ensures well { OnOk result (StaysWell (T.calls out.old) (T.calls out.new)) }
    ensures failed { OnErr result (FailsLast (T.calls out.old) (T.calls out.new)) }
{
    let mut rest = bytes;
    while !rest.is_empty() {
        let taken = T::write(out, rest)?;
        rest = &rest[taken..];
    }
    Ok(())
}

/// Writes what is held back.
pub fn release<W, T: Writes<W>>(out: &mut W, held: &mut Vec<u8>) -> Result<(), NotWritten>
    ensures ok { OnOk result (Appends (T.contents out.old) (T.contents out.new) held.old.items) }
    ensures none_held { OnOk result (held.new.items ≡ []) }
    ensures err { OnErr result (WritesFront (T.contents out.old) (T.contents out.new) held.old.items) }
    ensures some { OnErr result (0 < length held.old.items) }
    ensures well { OnOk result (StaysWell (T.calls out.old) (T.calls out.new)) }
    ensures failed { OnErr result (FailsLast (T.calls out.old) (T.calls out.new)) }
{
    write_out::<W, T>(out, held.as_slice())?;
    held.clear();
    Ok(())
}

/// Writes the line and then LF.
fn write_line<W, T: Writes<W>>(out: &mut W, line: &[u8]) -> Result<(), NotWritten>
    ensures ok { OnOk result (Appends (T.contents out.old) (T.contents out.new) (text_of_line line.now)) }
    ensures err { OnErr result (WritesFront (T.contents out.old) (T.contents out.new) (text_of_line line.now)) }
    ensures well { OnOk result (StaysWell (T.calls out.old) (T.calls out.new)) }
    ensures failed { OnErr result (FailsLast (T.calls out.old) (T.calls out.new)) }
{
    write_out::<W, T>(out, line)?;
    write_out::<W, T>(out, b"\n")
}

/// Writes what is held back, where it is more than is held back.
fn release_full<W, T: Writes<W>>(out: &mut W, held: &mut Vec<u8>) -> Result<(), NotWritten>
    ensures ok { OnOk result (WritesBut (T.contents out.old) (T.contents out.new) held.new.items held.old.items) }
    ensures err { OnErr result (WritesFront (T.contents out.old) (T.contents out.new) held.old.items) }
    ensures well { OnOk result (StaysWell (T.calls out.old) (T.calls out.new)) }
    ensures failed { OnErr result (FailsLast (T.calls out.old) (T.calls out.new)) }
{
    if held.len() > HELD_BACK {
        release::<W, T>(out, held)?;
    }
    Ok(())
}

/// Puts a line and LF after what a vector holds, or nothing where an allocation fails.
#[inline(always)]
pub(crate) fn put_line(line: &[u8], out: &mut Vec<u8>) -> Result<(), AllocError>
    ensures ok { OnOk result (out.new.items ≡ out.old.items ++ text_of_line line.now) }
    ensures err { OnErr result (out.new.items ≡ out.old.items) }
{
    let length = out.len();
    out.extend_from_slice(line)?;
    match out.push(b'\n') {
        Ok(()) => Ok(()),
        Err(refused) => {
            out.truncate(length);
            Err(refused.into())
        }
    }
}

/// Holds the line and LF back after what is held, or writes all where an allocation fails.
#[inline(always)]
pub fn keep<W, T: Writes<W>>(out: &mut W, held: &mut Vec<u8>, line: &[u8]) -> Result<(), NotWritten>
    ensures ok { OnOk result
        (WritesBut (T.contents out.old) (T.contents out.new) held.new.items (held.old.items ++ text_of_line line.now)) }
    ensures err { OnErr result
        (WritesFront (T.contents out.old) (T.contents out.new) (held.old.items ++ text_of_line line.now)) }
    ensures well { OnOk result (StaysWell (T.calls out.old) (T.calls out.new)) }
    ensures failed { OnErr result (FailsLast (T.calls out.old) (T.calls out.new)) }
{
    match put_line(line, held) {
        Ok(()) => release_full::<W, T>(out, held),
        Err(_) => {
            release::<W, T>(out, held)?;
            write_line::<W, T>(out, line)
        }
    }
}
