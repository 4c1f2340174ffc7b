//! Explains a filter's outcome on a row: the explanation of the filter, with the value of each node.
//!
//! ```rust
//! use row_explanation::explain_row;
//!
//! let text = explain_row(alloc, &filter, &now, b"{\"ID\":5}")?;
//! assert!(rt; text.as_str().starts_with("0..7 gt Edm.Boolean = true\n  0..2 property ID Edm.Int32 = 5\n"));
//! ```
#![tactic(auto)]

mod evaluation_stop;
mod node_report;
mod row_lines;
mod value_text;

pub use evaluation_stop::stop_index;
pub use node_report::{NodeReport, report_of};
pub use row_lines::{RowFault, explain_row};
