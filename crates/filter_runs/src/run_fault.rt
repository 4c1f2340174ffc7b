ghost use Rattle.std.specs.Prelude.{◌≡◌, Some};
ghost use Rattle.filter_runs.specs.RunStops.{run_stop};

use edm_entities::RowFault;
use line_filter::RunStop;
use odata_eval::EvalFault;
use row_judges::BadRow;
use thiserror::Error;

/// Why a run over rows ended early. It names what is wrong with a row, and adds a document that is no collection. Lines
/// are counted from 1.
#[derive(Debug, Drop, Error)]
pub enum RunFault {
    /// The line is not UTF-8, or not JSON that `serde_json` reads.
    #[error("row {line} Json")]
    Json { line: u64 },
    /// The line's value is not an entity of the filtered type.
    #[error("row {line} {fault}")]
    Row { line: u64, fault: RowFault },
    /// The filter has no value on the line's entity.
    #[error("row {line} {fault}")]
    Arithmetic { line: u64, fault: EvalFault },
    /// The line has more than 1,048,576 bytes before its LF.
    #[error("row {line} LineTooLong")]
    LineTooLong { line: u64 },
    /// The document is not an object with an array `value`.
    #[error("row NotACollection")]
    NotACollection,
    /// A read failed in this line, so the line is the number of LFs read plus one.
    #[error("read rows {line}")]
    Read { line: u64 },
    /// A write or the last flush failed.
    #[error("write")]
    Write,
    /// An allocation failed in this line, or while it was read.
    #[error("memory")]
    Memory { line: u64 },
}

/// The fault of a run over rows that stopped so.
pub(crate) fn run_fault(stop: RunStop<BadRow>) -> RunFault
    ensures { run_stop result ≡ Some stop }
{
    match stop {
        RunStop::Fault { line, fault } => match fault {
            BadRow::NotJson => RunFault::Json { line },
            BadRow::NoEntity(fault) => RunFault::Row { line, fault },
            BadRow::NoValue(fault) => RunFault::Arithmetic { line, fault },
        },
        RunStop::TooLong { line } => RunFault::LineTooLong { line },
        RunStop::Read { line } => RunFault::Read { line },
        RunStop::Write => RunFault::Write,
        RunStop::Memory { line } => RunFault::Memory { line },
    }
}
