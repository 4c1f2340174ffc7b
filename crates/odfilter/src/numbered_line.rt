//! One line of rows, by its number.
use crate::streams::NotedRows;
use odata_filter::{LineFault, LineReader, RunFault};
use std::alloc::Global;

/// What is found of the line of a number.
#[derive(Drop)]
pub enum FoundLine {
    /// A copy of it.
    Line(Vec<u8>),
    /// There is none: there are so many lines.
    Lines(u64),
}

/// Why a line could not be read.
fn line_fault(line: u64, fault: LineFault) -> RunFault {
    match fault {
        LineFault::TooLong => RunFault::LineTooLong { line },
        LineFault::Read => RunFault::Read { line },
        LineFault::Memory => RunFault::Memory { line },
    }
}

/// A copy of a row, which is the line of that number.
fn copy_of(alloc: Global, row: &[u8], line: u64) -> Result<FoundLine, RunFault> {
    let mut copy = Vec::new(alloc);
    match copy.extend_from_slice(row) {
        Ok(()) => Ok(FoundLine::Line(copy)),
        Err(_) => Err(RunFault::Memory { line }),
    }
}

/// The line of that number, counted from 1. A run over rows reads them by another type, so that its loop has all of a
/// step in itself.
pub fn numbered_line(
    alloc: Global,
    rows: NotedRows<'_>,
    number: u64,
) -> Result<FoundLine, RunFault> {
    let mut lines = LineReader::new(alloc, rows);
    for before in 0..number {
        match lines.next_line() {
            Ok(Some(row)) => if before + 1 == number {
                return copy_of(alloc, row, number);
            },
            Ok(None) => return Ok(FoundLine::Lines(before)),
            Err(fault) => return Err(line_fault(before + 1, fault)),
        }
    }
    Ok(FoundLine::Lines(0))
}
