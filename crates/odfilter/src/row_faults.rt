//! The faults of rows that a run passes over: each is reported, and counted by its name.
use crate::fault_lines::report;
use crate::line_prefix::LinePrefix;
use crate::progress::Progress;
use crate::reports::are_hints_wanted;
use command_hints::{FaultyRow, FilteredType, bad_row_json, bad_row_name, bad_row_sentence};
use odata_filter::command_line::{Format, RunRequest};
use odata_filter::{BadRow, Part, TakesFaults};
use std::alloc::AllocError;

/// The faults of rows so far.
#[derive(Drop)]
pub struct RowFaults<'p, 'r> {
    pub rt: &'r HostRuntime,
    pub format: Format,
    /// Whether rows at fault are passed over.
    pub is_passing: bool,
    /// Whether a sentence follows each line.
    pub says_why: bool,
    /// The file that is read; none of standard input.
    pub file: Option<&'r str>,
    /// The part of it that is read, if not all of it.
    part: Option<Part>,
    /// The type of the rows, if a person hears of those at fault.
    known: Option<&'p FilteredType>,
    /// What stands before each line.
    pub prefix: LinePrefix<'r>,
    pub progress: &'p Progress<'r>,
    /// How many rows had the fault of that name, in the order in which the names came.
    pub counts: Vec<(&'static str, u64)>,
}

impl<'p, 'r> RowFaults<'p, 'r> {
    /// None so far. Those of rows that are at fault are passed over, or end the run.
    pub fn none(
        request: &RunRequest<'_>,
        known: Option<&'p FilteredType>,
        progress: &'p Progress<'r>,
    ) -> RowFaults<'p, 'r> {
        RowFaults {
            rt: progress.rt,
            format: request.format,
            is_passing: request.skip_faulty,
            says_why: are_hints_wanted(progress.rt, request.hints),
            file: None,
            part: request.part,
            known,
            prefix: LinePrefix::Nothing,
            progress,
            counts: Vec::new(progress.rt.alloc()),
        }
    }

    /// How many rows were at fault.
    pub fn total(&self) -> u64 {
        let mut total = 0u64;
        for (_, count) in self.counts.as_slice() {
            total = total.saturating_add(*count);
        }
        total
    }

    /// Counts one more fault of that name.
    fn count(&mut self, name: &'static str) -> Result<(), AllocError> {
        for (other, count) in self.counts.iter_mut() {
            if *other == name {
                *count = count.saturating_add(1);
                return Ok(());
            }
        }
        self.counts.push((name, 1))?;
        Ok(())
    }

    /// The object of a fault, where faults are objects and there is memory for it.
    fn object_of(&self, number: u64, fault: &BadRow) -> Option<String> {
        match self.format {
            Format::Json => bad_row_json(self.rt.alloc(), fault, self.file, number).ok()?,
            Format::Text => None,
        }
    }

    /// Writes the line of a fault.
    fn write_line(&self, number: u64, fault: &BadRow) {
        let prefix = self.prefix;
        let _ = report(self.rt, format_args!("{prefix}row {number} {fault}"), 4);
    }

    /// Says to a person why a row is at fault, if there is memory for it.
    fn say_why(&self, number: u64, fault: &BadRow) {
        let text = self.progress.recent.row(number);
        let row = FaultyRow {
            file: self.file,
            part: self.part,
            is_entity: false,
            number,
            text: text.as_deref(),
        };
        match bad_row_sentence(self.rt.alloc(), fault, &row, self.known) {
            Ok(Some(sentence)) => {
                let _ = report(self.rt, sentence.as_str(), 4);
            }
            Ok(None) => {}
            Err(_) => {}
        }
    }

    /// Writes the object of a fault, or its line and what is said of it.
    fn write(&self, number: u64, fault: &BadRow) {
        self.progress.clear();
        match self.object_of(number, fault) {
            Some(object) => {
                let _ = report(self.rt, object.as_str(), 4);
            }
            None => {
                self.write_line(number, fault);
                if self.says_why {
                    self.say_why(number, fault);
                }
            }
        }
    }
}

impl TakesFaults<BadRow> for RowFaults<'_, '_> {
    fn passes_over(&mut self, number: u64, fault: &BadRow) -> bool {
        if !self.is_passing || fault.is_memory() || self.count(bad_row_name(fault)).is_err() {
            return false;
        }
        self.write(number, fault);
        true
    }
}
