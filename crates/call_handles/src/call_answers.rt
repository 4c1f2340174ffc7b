//! How the result of a call is reported.
ghost use Rattle.std.specs.Prelude.{Ok};
ghost use Rattle.call_handles.specs.Outcomes.{Gives, IsReported};

use crate::answer::Answer;
use crate::call_fault::Fault;
use crate::handle::Handle;
use crate::owned::Owned;
use std::alloc::Global;

/// Returns the status of a call that failed, and reports the fault in its answer.
pub fn report_fault(fault: &Fault, answer: &mut Answer) -> u32
    ensures { IsReported fault.now answer.new result }
{
    *answer = fault.answer();
    fault.status()
}

/// Hands out a handle.
fn give_handle(alloc: Global, handle: Handle, made: &mut Owned, answer: &mut Answer) -> u32
    ensures { Gives (Ok handle) made.new.value answer.new result }
{
    match Box::new(alloc, handle) {
        Ok(value) => {
            *made = Owned::of(value);
            *answer = Answer::empty();
            0
        }
        Err(_) => {
            *made = Owned::none();
            report_fault(&Fault::Memory, answer)
        }
    }
}

/// Hands out the handle that a call made, or none, and returns the status.
pub fn give(
    alloc: Global,
    outcome: Result<Handle, Fault>,
    made: &mut Owned,
    answer: &mut Answer,
) -> u32
    ensures { Gives outcome made.new.value answer.new result }
{
    match outcome {
        Ok(handle) => give_handle(alloc, handle, made, answer),
        Err(fault) => {
            *made = Owned::none();
            report_fault(&fault, answer)
        }
    }
}
