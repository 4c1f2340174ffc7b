//! What a line counts, or why the run stops at it: a line may be too long or blank, and the judge judges any other.
ghost use Rattle.std.specs.Prelude.{IsTrue, length, take, ◌↔◌, ◌≡◌};
ghost use Rattle.line_filter.specs.LineItems.{IsFoundOf, SaysTheSame};
ghost use Rattle.line_filter.specs.Lines.{IsBlank, is_space};
ghost use Rattle.line_filter.specs.private.Walk.{ComesOf};

use super::item_outcome::outcome_of;
use super::judge::Judge;
use super::run_stop::RunStop;
use super::tally::Tally;

/// The most bytes that a line may have before its LF.
pub(crate) const LONGEST_LINE: usize = 1_048_576;

/// Whether the byte is a space, a tab or a CR.
fn is_space(byte: u8) -> bool
    ensures { result ≡ is_space byte }
{
    byte == b' ' || byte == b'\t' || byte == b'\r'
}

/// Whether the line has nothing but spaces, tabs and CRs.
pub(crate) fn is_blank(line: &[u8]) -> bool
    ensures { IsTrue result ↔ IsBlank line.now }
{
    line.iter().all(|byte| is_space(*byte))
}

/// What the line of this number counts, or why the run stops at it, whatever the line holds.
#[inline(never)]
pub(crate) fn line_outcome<J: Judge>(
    judge: &mut J,
    line: &[u8],
    number: u64,
) -> Result<Tally, RunStop<J::Fault>>
    ensures comes { ComesOf (IsFoundOf (J.says judge.old) line.now) number result }
    ensures same { SaysTheSame (J.says judge.old) (J.says judge.new) }
{
    if line.len() > LONGEST_LINE {
        return Err(RunStop::TooLong { line: number });
    }
    if is_blank(line) {
        return Ok(Tally { rows: 0, kept: 0 });
    }
    match judge.judge(line, number) {
        Ok(judgment) => outcome_of(judgment, number),
        Err(_) => Err(RunStop::Memory { line: number }),
    }
}

/// The same of a line that stands at the front of the bytes.
pub(crate) fn outcome_at_front<J: Judge>(
    judge: &mut J,
    bytes: &[u8],
    line: &[u8],
    number: u64,
) -> Result<Tally, RunStop<J::Fault>>
    requires { take (length line.now) bytes.now ≡ line.now }
    ensures comes { ComesOf (IsFoundOf (J.says judge.old) line.now) number result }
    ensures same { SaysTheSame (J.says judge.old) (J.says judge.new) }
{
    if line.is_empty() {
        return line_outcome(judge, line, number);
    }
    if line.len() > LONGEST_LINE {
        return Err(RunStop::TooLong { line: number });
    }
    match judge.judge_at_front(bytes, line.len(), false, number) {
        Some(judgment) => outcome_of(judgment, number),
        None => line_outcome(judge, line, number),
    }
}
