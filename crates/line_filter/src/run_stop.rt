use std::fmt::Display;
use thiserror::Error;

/// Why a run over lines ended early. To a judge's fault it adds the line, counted from 1, and faults of devices and of
/// memory.
#[derive(Debug, Drop, Error)]
#[error_bound(F: Display)]
pub enum RunStop<F> {
    /// The judge found the line at fault.
    #[error("line {line}: {fault}")]
    Fault { line: u64, fault: F },
    /// The line has more than 1,048,576 bytes before its LF.
    #[error("line {line} is too long")]
    TooLong { line: u64 },
    /// A read failed in this line, so the line is the number of LFs read plus one.
    #[error("a read failed in line {line}")]
    Read { line: u64 },
    /// A write or the last flush failed.
    #[error("a write failed")]
    Write,
    /// An allocation failed in this line, or while it was read.
    #[error("out of memory in line {line}")]
    Memory { line: u64 },
}
