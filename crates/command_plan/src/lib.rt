//! Command lines: the words of one, and the plan that they ask for.
//!
//! ```rust
//! use command_plan::plan;
//!
//! let words = ["odfilter", "check", "--schema", "s.json", "--type", "N.T", "--filter", "true"];
//! let plan = plan(alloc, words.as_slice())?;
//! assert!(rt; plan.filter == Some("true") && plan.rows.is_none());
//! ```
#![tactic(auto)]

pub mod command_line;
mod laws;
mod part_texts;
mod planner;
mod requests;
mod verb_values;

pub use laws::{lines_by_example, reports_by_example, types_by_example};
pub use planner::plan;
pub use requests::request;
