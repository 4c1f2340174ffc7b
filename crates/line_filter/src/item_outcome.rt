//! What a judged item counts, or why the run stops at it, and how the text of a kept one is written.
ghost use Rattle.std.specs.Prelude.{◌≡◌, ◌++◌, true, OnOk, OnErr};
ghost use Rattle.line_filter.specs.CallLogs.{StaysWell, FailsLast};
ghost use Rattle.line_filter.specs.Kept.{LineClass};
ghost use Rattle.line_filter.specs.Lines.{text_of_line};
ghost use Rattle.line_filter.specs.Growth.{WritesFront};
ghost use Rattle.line_filter.specs.private.HeldBack.{WritesBut};
ghost use Rattle.line_filter.specs.private.Walk.{outcome_of, text_where};

use super::device::{NotWritten, Writes};
use super::judge::Judgment;
use super::output::keep;
use super::run_stop::RunStop;
use super::tally::Tally;

/// Holds the text and LF back as [`keep`] does. It is not inlined, so that what judges the items is.
#[inline(never)]
fn keep_item<W, T: Writes<W>>(
    out: &mut W,
    held: &mut Vec<u8>,
    text: &[u8],
) -> Result<(), NotWritten>
    ensures ok { OnOk result
        (WritesBut (T.contents out.old) (T.contents out.new) held.new.items (held.old.items ++ text_of_line text.now)) }
    ensures err { OnErr result
        (WritesFront (T.contents out.old) (T.contents out.new) (held.old.items ++ text_of_line text.now)) }
    ensures well { OnOk result (StaysWell (T.calls out.old) (T.calls out.new)) }
    ensures failed { OnErr result (FailsLast (T.calls out.old) (T.calls out.new)) }
{
    keep::<W, T>(out, held, text)
}

/// Writes the text and then LF, where its item is kept.
pub fn keep_where<W, T: Writes<W>>(
    is_kept: bool,
    text: &[u8],
    out: &mut W,
    held: &mut Vec<u8>,
) -> Result<(), NotWritten>
    ensures ok { OnOk result (WritesBut (T.contents out.old) (T.contents out.new) held.new.items
        (held.old.items ++ text_where is_kept (text_of_line text.now))) }
    ensures kept { OnErr result (is_kept ≡ true) }
    ensures err { OnErr result
        (WritesFront (T.contents out.old) (T.contents out.new) (held.old.items ++ text_of_line text.now)) }
    ensures well { OnOk result (StaysWell (T.calls out.old) (T.calls out.new)) }
    ensures failed { OnErr result (FailsLast (T.calls out.old) (T.calls out.new)) }
{
    if is_kept {
        keep_item::<W, T>(out, held, text)
    } else {
        Ok(())
    }
}

/// What the item of this number counts, which was judged so, or why the run stops at it.
pub fn outcome_of<F: Drop>(judgment: Judgment<F>, number: u64) -> Result<Tally, RunStop<F>>
    ensures { result ≡ outcome_of number (LineClass.judged judgment) }
{
    match judgment {
        Judgment::Kept => Ok(Tally { rows: 1, kept: 1 }),
        Judgment::LeftOut => Ok(Tally { rows: 1, kept: 0 }),
        Judgment::Fault(fault) => Err(RunStop::Fault {
            line: number,
            fault,
        }),
    }
}
