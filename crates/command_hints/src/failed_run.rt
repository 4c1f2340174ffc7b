use crate::faulty_row::FaultyRow;
use command_plan::command_line::Plan;
use odata_filter::{Failure, Part, RunFault};

/// A run that failed, and what it was given.
#[derive(Clone, Copy)]
pub struct FailedRun<'r, 'p, 'l> {
    pub plan: &'r Plan<'p>,
    /// The part of its file of rows that it was to read, if not all of it.
    pub part: Option<Part>,
    /// The bytes of the schema file.
    pub document: &'r [u8],
    pub failure: &'r Failure<'p>,
    /// The row at fault if it is available, or the first bytes of rows that are no collection.
    pub row: Option<&'l [u8]>,
}

impl<'r> FailedRun<'r, '_, '_> {
    /// The row at fault, if one is.
    pub(crate) fn faulty_row(&self) -> Option<FaultyRow<'_>> {
        Some(FaultyRow {
            file: self.plan.rows,
            part: self.part,
            is_entity: self.plan.collection,
            number: self.line()?,
            text: self.row,
        })
    }

    /// The number of the row or line at fault, if one is.
    pub(crate) fn line(&self) -> Option<u64> {
        match self.failure {
            Failure::Rows(fault) => faulty_line(fault),
            _ => None,
        }
    }

    /// The file that the fault is in, of a schema or of rows; none where the rows come from standard input.
    pub(crate) fn file(&self) -> Option<&'r str> {
        match self.failure {
            Failure::Schema(_) => Some(self.plan.schema),
            Failure::Rows(_) => self.plan.rows,
            _ => None,
        }
    }
}

/// The line of a fault of a row.
fn faulty_line(fault: &RunFault) -> Option<u64> {
    match fault {
        RunFault::Json { line }
        | RunFault::Row { line, .. }
        | RunFault::Arithmetic { line, .. }
        | RunFault::LineTooLong { line } => Some(*line),
        _ => None,
    }
}
