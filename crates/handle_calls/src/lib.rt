//! Calls over handles, for a library of C: schemas, types, filters and judges that a program holds by handles, each call
//! with a status and an answer of plain numbers, and texts in the caller's buffers.
//!
//! ```rust
//! let status = calls::canonical(alloc, filter, &mut text, &mut answer);
//! let canonical = &text[..answer.length];
//! ```
#![tactic(auto)]

pub mod calls;
mod cost_calls;
mod filter_calls;
mod judge_calls;
mod line_calls;
mod schema_calls;
mod share_calls;
mod url_calls;

pub use judge_calls::{put_moment, report_next};
