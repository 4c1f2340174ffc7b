//! The program: words, files, streams and the status. What it does with them is `odata_filter`'s.
#![tactic(auto)]

mod counted_run;
mod explain_run;
mod fault_lines;
mod items_run;
mod line_prefix;
mod numbered_line;
mod plan_run;
mod progress;
mod recent_rows;
mod reports;
mod row_faults;
mod run_end;
mod streams;
mod types_run;

use crate::fault_lines::{report, report_fault, report_memory};
use crate::plan_run::carry_out;
use crate::types_run::list_types;
use odata_filter::command_line::Request;
use odata_filter::request;
use std::io::ErrorKind;
use std::process::ExitCode;
use std::{env, io};

/// How much stack is taken before anything is allocated.
const STACK_BYTES: usize = 196_608;

/// The words of the command line, the program's name first.
fn words(rt: &HostRuntime) -> io::Result<Vec<String>> {
    Ok(env::args(rt)?.collect(rt.alloc())?)
}

/// The status of the whole run. An error is one of the words: running out of memory for them, or a word that is not
/// UTF-8.
fn status(rt: &HostRuntime) -> io::Result<u8> {
    let words = words(rt)?;
    let mut texts = Vec::new(rt.alloc());
    for word in &words {
        texts.push(word.as_str())?;
    }
    Ok(match request(rt.alloc(), texts.as_slice()) {
        Ok(Request::Run(request)) => carry_out(rt, &request),
        Ok(Request::Types(request)) => list_types(rt, &request),
        Err(fault) => report_fault(rt, fault),
    })
}

/// Takes the stack of a run over short texts while there is memory for it, and gives its last byte. A stack that cannot
/// grow once allocations have taken what a process may have would end the run by a signal, where it has to end with a
/// status.
#[inline(never)]
fn taken_stack() -> u8 {
    let stack = [0u8; STACK_BYTES];
    stack[STACK_BYTES - 1]
}

fn main(rt: HostRuntime) -> ExitCode {
    let _ = taken_stack();
    ExitCode::from(match status(&rt) {
        Ok(status) => status,
        Err(error) if error.kind() == ErrorKind::OutOfMemory => report_memory(&rt),
        Err(_) => report(&rt, "usage not UTF-8", 2),
    })
}
