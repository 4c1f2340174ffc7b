//! The loop over the lines of bytes in memory.
ghost use Rattle.std.specs.Prelude.{◌≡◌, ◌++◌, IfErr, IfOk, OnOk, OnErr};
ghost use Rattle.line_filter.specs.Growth.{Grows};
ghost use Rattle.line_filter.specs.Kept.{Filters, IsOfItem, StopsHeld};
ghost use Rattle.line_filter.specs.LineItems.{SaysTheSame, lines};
ghost use Rattle.line_filter.specs.Lines.{text_of_line};
ghost use Rattle.line_filter.specs.private.Walk.{text_where};

use super::judge::Judge;
use super::line_outcome::outcome_at_front;
use super::output::put_line;
use super::run_stop::RunStop;
use super::split::first_line;
use super::tally::Tally;

/// Puts the line of this number and LF after what a vector holds, where the line is kept. Out of memory where the
/// vector cannot grow.
fn put_where<F>(
    is_kept: bool,
    line: &[u8],
    number: u64,
    out: &mut Vec<u8>,
) -> Result<(), RunStop<F>>
    ensures ok { OnOk result (out.new.items ≡ out.old.items ++ text_where is_kept (text_of_line line.now)) }
    ensures err { OnErr result (out.new.items ≡ out.old.items) }
    ensures memory { IfErr result (λ stop. stop ≡ RunStop.Memory number) }
{
    if !is_kept {
        return Ok(());
    }
    match put_line(line, out) {
        Ok(()) => Ok(()),
        Err(_) => Err(RunStop::Memory { line: number }),
    }
}

/// Judges the lines of bytes in memory, and appends those that are kept to a vector. They are unchanged and each
/// followed by LF.
///
/// Lines are judged as by [`filter_reader`](crate::filter_reader). No device is called, so the result is neither `Read`
/// nor `Write`. If an allocation for a kept line fails it is `Memory`, and the vector has the kept lines before it.
pub fn filter_bytes<J: Judge>(
    judge: &mut J,
    bytes: &[u8],
    out: &mut Vec<u8>,
) -> Result<Tally, RunStop<J::Fault>>
    ensures filters { IfOk result (λ tally. Grows out.old.items out.new.items
        (λ text. Filters (lines (J.says judge.old) bytes.now) text tally)) }
    ensures stops { IfErr result (λ stop. Grows out.old.items out.new.items
        (λ text. StopsHeld (lines (J.says judge.old) bytes.now) text stop)) }
    ensures of_item { IfErr result IsOfItem }
    ensures same { SaysTheSame (J.says judge.old) (J.says judge.new) }
{
    let mut rest = bytes;
    let mut lines = 0;
    let mut tally = Tally { rows: 0, kept: 0 };
    while !rest.is_empty() {
        let (line, after) = first_line(rest);
        let one = outcome_at_front(judge, rest, line, lines + 1)?;
        put_where(one.kept == 1, line, lines + 1, out)?;
        lines += 1;
        tally.rows += one.rows;
        tally.kept += one.kept;
        rest = after;
    }
    Ok(tally)
}
