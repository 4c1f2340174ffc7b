//! What is said of a run that failed, to a person or to a program, beside its line.
//!
//! ```rust
//! use command_hints::{FailedRun, failure_hints};
//!
//! let run = FailedRun { plan: &plan, document, failure: &failure, part: None, row: None };
//! if let Some(hints) = failure_hints(alloc, &run)? {
//!     eprintln!(rt; "{hints}")?;
//! }
//! ```
#![tactic(auto)]

mod accepted_object;
mod failed_run;
mod failure_report;
mod faulty_row;
mod file_form;
mod filter_of_plan;
mod filtered_type;
mod json_place;
mod marked_text;
mod near_types;
mod plan_explanation;
mod plan_page;
mod reported_fault;
mod row_hints;
mod row_object;
mod row_value;
mod text_columns;
mod unknown_types;

pub use accepted_object::accepted_json;
pub use failed_run::FailedRun;
pub use failure_report::{failure_hints, failure_json};
pub use fault_json::{AbsentRow, no_row_json, no_row_sentence};
pub use faulty_row::FaultyRow;
pub use filtered_type::FilteredType;
pub use plan_explanation::{explained_row, explains_rows};
pub use plan_page::filter_plan_page;
pub use row_object::{bad_row_json, bad_row_name, bad_row_sentence};
pub use unknown_types::type_warnings;
