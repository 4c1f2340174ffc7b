//! Rows in, rows out: the lines of JSON that a filter keeps, and the program's command line over them.
//!
//! ```rust
//! use odata_filter::filter_slice;
//! use odata_typing::check;
//!
//! let filter = check(alloc, &schema, item, "Name eq 'b'")?;
//! let mut kept = Vec::new(alloc);
//! let tally = filter_slice(alloc, &filter, &now, b"{\"Name\":\"a\"}\n{\"Name\":\"b\"}\n", &mut kept)?;
//! assert!(rt; tally.rows == 2 && tally.kept == 1);
//! ```
#![tactic(auto)]

mod command;
mod headline;
mod laws;

pub use command::failure::Failure;
pub use command::run_past_faults::run_past_faults;
pub use command::runner::{Ended, report_failure, run, run_to_failure};
pub use command::whole_input::{ReadAllError, read_whole, read_whole_with};
pub use command_plan::{command_line, lines_by_example, plan, reports_by_example, request};
pub use fault_numbers::{FaultKind, Numbered, fault_name, refusal_span, row_fault_path};
pub use filter_runs::{
    FilterAt, RunFault, filter_collection, filter_collection_with, filter_lines, filter_lines_with,
    filter_past_faults, filter_slice,
};
pub use headline::{canonical_texts_keep_rows, filters_keep_what_is_true};
pub use laws::{collections_stop_once, rows_stop_once, unfailing_devices_never_fail};
pub use line_filter::{
    ByRecord, CallLog, Called, Input, LineFault, LineReader, Logged, NotRead, NotWritten, Output,
    Part, PartReader, Reads, TakesFaults, Tally, Through, Unfailing, Unlogged, Writes, part_of,
};
pub use row_judges::{
    BadRow, BoundedJudge, FilterRows, judge_row, row_layout_of, rows_are_reported_once,
};
