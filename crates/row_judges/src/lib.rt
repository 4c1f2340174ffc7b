//! Rows that a filter judges, each by itself: one JSON object, read without a tree where that can be.
//!
//! ```rust
//! use odata_typing::check;
//! use row_judges::FilterRows;
//!
//! let filter = check(alloc, &schema, item, "Name eq 'b'")?;
//! let mut rows = FilterRows::new(alloc, &filter);
//! let verdict = rows.judge(&filter, &now, b"{\"Name\":\"b\"}")?;
//! assert!(rt; matches!(verdict, Verdict::True));
//! ```
#![tactic(auto)]

mod bad_row;
mod bounded_judge;
mod bounded_line_judge;
mod filter_rows;
mod item_rows;
mod laws;
mod row_judge;
mod row_line_judge;
mod row_verdict;
mod rows_in_place;

pub use bad_row::BadRow;
pub use bounded_judge::BoundedJudge;
pub use bounded_line_judge::BoundedFault;
pub use filter_rows::FilterRows;
pub use item_rows::verdicts_in_place;
pub use laws::{rows_are_judged_once, rows_are_reported_once};
pub use row_judge::RowJudge;
pub use row_line_judge::RowLineJudge;
pub use row_verdict::{judge_row, row_layout_of};
