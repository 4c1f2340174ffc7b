//! Rows in, rows out: the lines or items of JSON that a filter keeps.
//!
//! ```rust
//! use filter_runs::filter_slice;
//! use odata_typing::check;
//!
//! let filter = check(alloc, &schema, item, "Name eq 'b'")?;
//! let mut kept = Vec::new(alloc);
//! let tally = filter_slice(alloc, &filter, &now, b"{\"Name\":\"a\"}\n{\"Name\":\"b\"}\n", &mut kept)?;
//! assert!(rt; tally.rows == 2 && tally.kept == 1);
//! ```
#![tactic(auto)]

mod collection;
mod filter;
mod known_verdicts;
mod past_faults;
mod run_fault;

pub use collection::{filter_collection, filter_collection_with};
pub use filter::{filter_lines, filter_lines_with, filter_slice};
pub use past_faults::{FilterAt, filter_past_faults};
pub use run_fault::RunFault;
