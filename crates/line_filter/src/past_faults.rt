//! Lines at fault that a run passes over.
ghost use Rattle.std.specs.Prelude.{◌≡◌, IfErr, IfOk, IfSome};
ghost use Rattle.line_filter.specs.Growth.{Writes};
ghost use Rattle.line_filter.specs.Kept.{StopsWith};
ghost use Rattle.line_filter.specs.LineItems.{lines};
ghost use Rattle.line_filter.specs.LineSource.{left_of};
ghost use Rattle.line_filter.specs.LineStreams.{LacksLine};
ghost use Rattle.line_filter.specs.PastFaults.{KeepsPastFaults, past_faults};
ghost use Rattle.line_filter.specs.private.Passing.{IsPassedOn};

use super::device::{Reads, Writes};
use super::judge::{Judge, Judgment};
use super::line_reader::LineReader;
use super::line_runs::filter_reader;
use super::run_stop::RunStop;
use super::tally::Tally;
use std::alloc::{AllocError, Global};
use std::io::Read;

/// Takes the faults that a run finds, and says whether it goes on.
pub trait TakesFaults<F> {
    /// Takes the fault of the line of that number. `true` says that the run passes over the line. It has no clause: a
    /// run may pass over any line at fault.
    fn passes_over(&mut self, number: u64, fault: &F) -> bool;
}

/// Judges lines as another judge does, past faults. A line at fault is left out where `faults` passes over it.
#[derive(Drop)]
pub struct PastFaults<'f, J, P> {
    pub judge: J,
    pub faults: &'f mut P,
}

impl<J: Judge, P: TakesFaults<J::Fault>> PastFaults<'_, J, P> {
    /// The judgment, or that the line is left out.
    fn passed_over(&mut self, judgment: Judgment<J::Fault>, number: u64) -> Judgment<J::Fault>
        ensures passed { IsPassedOn judgment result }
        ensures same { self.new.judge ≡ self.old.judge }
    {
        match judgment {
            Judgment::Fault(fault) => if self.faults.passes_over(number, &fault) {
                Judgment::LeftOut
            } else {
                Judgment::Fault(fault)
            },
            Judgment::Kept => Judgment::Kept,
            Judgment::LeftOut => Judgment::LeftOut,
        }
    }
}

impl<J: Judge, P: TakesFaults<J::Fault>> Judge for PastFaults<'_, J, P> {
    type Fault = J::Fault;

    ghost says = { λ past. past_faults (J.says past.judge) };

    fn judge_at_front(
        &mut self,
        bytes: &[u8],
        count: usize,
        is_ascii: bool,
        number: u64,
    ) -> Option<Judgment<J::Fault>> {
        match self.judge.judge_at_front(bytes, count, is_ascii, number) {
            Some(judgment) => Some(self.passed_over(judgment, number)),
            None => None,
        }
    }

    fn judge(&mut self, line: &[u8], number: u64) -> Result<Judgment<J::Fault>, AllocError> {
        match self.judge.judge(line, number) {
            Ok(judgment) => Ok(self.passed_over(judgment, number)),
            Err(error) => Err(error),
        }
    }
}

/// Judges each line past those at fault, and writes the kept ones. It does so as
/// [`filter_reader`](crate::filter_reader) does; the tally counts the lines passed over as rows.
pub fn filter_past_faults<
    R: Read,
    S: Reads<R>,
    J: Judge,
    P: TakesFaults<J::Fault>,
    W,
    T: Writes<W>,
>(
    alloc: Global,
    past: &mut PastFaults<'_, J, P>,
    reader: &mut LineReader<R>,
    out: &mut W,
) -> Result<Tally, RunStop<J::Fault>>
    ensures kept { IfOk result (λ tally. IfSome (left_of R.remaining reader.old) (λ bytes.
        Writes (T.contents out.old) (T.contents out.new)
        (λ text. KeepsPastFaults (lines (J.says past.old.judge) bytes) text tally))) }
    ensures stops { IfErr result (λ stop. IfSome (left_of R.remaining reader.old) (λ bytes.
        Writes (T.contents out.old) (T.contents out.new) (λ text.
        StopsWith (lines (past_faults (J.says past.old.judge)) bytes)
        (LacksLine (past_faults (J.says past.old.judge)) bytes reader.new.waiting (R.remaining reader.new.reader))
        text stop))) }
{
    filter_reader::<R, S, PastFaults<'_, J, P>, W, T>(alloc, past, reader, out)
}
