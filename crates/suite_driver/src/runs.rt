//! Runs over lines that a reader gives and over a collection, into a buffer that is allocated before.
use crate::device_runs::{push_devices, push_logged, push_unfailing};
use crate::moments::moment_of;
use crate::question::Question;
use edm_values::Moment;
use odata_filter::{RunFault, Tally, filter_collection, filter_lines};
use odata_typing::Checked;
use std::alloc::{AllocError, Global};
use std::io::Read;

/// How many bytes a run may write before the buffer grows.
const KEPT_BYTES: usize = 256;

/// Appends how many rows a run kept and judged, or its fault, of memory with the line.
pub(crate) fn push_ended(
    out: &mut String,
    ended: &Result<Tally, RunFault>,
) -> Result<(), AllocError> {
    match ended {
        Ok(tally) => write!(out, "{} of {}", tally.kept, tally.rows),
        Err(RunFault::Memory { line }) => write!(out, "memory {line}"),
        Err(fault) => write!(out, "{fault}"),
    }
}

/// Appends what a run over lines ends with that come in two pieces, or a run over a collection, and what it wrote.
fn push_run_at(
    out: &mut String,
    alloc: Global,
    checked: &Checked<'_>,
    now: &Moment,
    question: &Question<'_>,
) -> Result<(), AllocError> {
    let mut kept = Vec::with_capacity(alloc, KEPT_BYTES)?;
    let ended = if question.word == "lines" {
        let rows = question.bytes.chain(question.second.as_bytes());
        filter_lines(alloc, checked, now, rows, &mut kept)
    } else {
        filter_collection(alloc, checked, now, question.bytes, &mut kept)
    };
    push_ended(out, &ended)?;
    let text = String::from_utf8_lossy(alloc, kept.as_slice())?;
    write!(out, "\n{text}")
}

/// Appends what a run of a filter ends with, and what it wrote, at the beginning of the year 1.
pub(crate) fn push_run_of(
    out: &mut String,
    alloc: Global,
    checked: &Checked<'_>,
    question: &Question<'_>,
) -> Result<(), AllocError> {
    match &moment_of("") {
        Some(now) => match question.word {
            "devices" => push_devices(out, alloc, checked, now, question),
            "logged" => push_logged(out, alloc, checked, now, question),
            "unfailing" => push_unfailing(out, alloc, checked, now, question),
            _ => push_run_at(out, alloc, checked, now, question),
        },
        None => out.push_str("no moment"),
    }
}
