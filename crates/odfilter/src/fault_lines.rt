//! Lines about faults that a run does not report itself.
use odata_filter::command_line::{PlanFault, RequestFault};
use std::fmt::Display;

/// Writes a line to standard error. The status was decided before, so it stands where standard error fails.
#[inline(never)]
pub fn report<D: Display + Drop>(rt: &HostRuntime, line: D, status: u8) -> u8 {
    let _ = eprintln!(rt; "{line}");
    status
}

/// Reports that an allocation failed.
pub fn report_memory(rt: &HostRuntime) -> u8 {
    report(rt, "memory", 6)
}

/// Reports why there is no plan, or what `clap` was asked for.
fn report_plan_fault(rt: &HostRuntime, fault: PlanFault) -> u8 {
    match fault {
        PlanFault::Clap(error) => {
            let _ = error.print(rt);
            if error.use_stderr() { 2 } else { 0 }
        }
        PlanFault::OneOf => report(rt, format_args!("usage {fault}"), 2),
        PlanFault::Memory => report_memory(rt),
    }
}

/// Reports why the words are no request.
#[inline(never)]
pub fn report_fault(rt: &HostRuntime, fault: RequestFault) -> u8 {
    match fault {
        RequestFault::Plan(fault) => report_plan_fault(rt, fault),
        RequestFault::Hints
        | RequestFault::Format
        | RequestFault::Collection
        | RequestFault::Items
        | RequestFault::Part
        | RequestFault::PartOfRows => report(rt, format_args!("usage {fault}"), 2),
    }
}
