//! The lines of a reader are judged one by one, and those that are kept go to a writer.
//!
//! What judges a line is a [`Judge`], whose faults are of its own type. The first line at fault ends the run.
//!
//! ```rust
//! use line_filter::filter_bytes;
//!
//! let tally = filter_bytes(&mut judge, b"a\nb\n", &mut kept)?;
//! println!(rt; "{} of {} lines", tally.kept, tally.rows)?;
//! ```
#![tactic(auto)]

mod buffer;
mod call_log;
mod called;
mod device;
mod item_indexes;
mod item_outcome;
mod judge;
mod laws;
mod line_feeds;
mod line_outcome;
mod line_reader;
mod line_runs;
mod lines_in_memory;
mod logged;
mod output;
mod part;
mod part_reader;
mod past_faults;
mod run_stop;
mod split;
mod strategies;
mod stream;
mod tally;
mod through_line;

pub use call_log::CallLog;
pub use called::{Called, Input, Output, Through};
pub use device::{NotRead, NotWritten, Reads, Writes};
pub use judge::{Judge, JudgeItem, Judgment, SaysOfItems};
pub use laws::{
    cursors_can_be_sought, items_stop_once, lines_stop_once, parts_have_each_line_once,
    parts_keep_what_all_keeps, slices_report_their_bytes, strategies_report_their_devices,
};
pub use line_reader::{LineFault, LineReader};
pub use line_runs::{filter_items, filter_reader};
pub use lines_in_memory::filter_bytes;
pub use logged::Logged;
pub use output::write_out;
pub use part::Part;
pub use part_reader::{PartReader, part_of};
pub use past_faults::{PastFaults, TakesFaults, filter_past_faults};
pub use run_stop::RunStop;
pub use strategies::{ByRecord, Unfailing, Unlogged};
pub use tally::Tally;
