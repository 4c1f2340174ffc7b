//! What calls of a library of C take and report: handles that a program holds, answers of plain numbers, the faults that
//! a status is reported for, and texts in the caller's buffers.
//!
//! ```rust
//! let status = report_bytes(text.as_bytes(), &mut buffer, &mut answer);
//! let written = &buffer[..answer.length];
//! ```
#![tactic(auto)]

mod answer;
mod call_answers;
mod call_fault;
mod call_moment;
mod caller_buffer;
mod handle;
mod owned;
mod raw;

pub use answer::Answer;
pub use call_answers::{give, report_fault};
pub use call_fault::{Fault, measured, path_of};
pub use call_moment::moment_for;
pub use caller_buffer::{report_bytes, write_both, write_text};
pub use handle::{
    ConditionsHandle, FilterHandle, Handle, JudgeHandle, OwnFilter, SchemaHandle, SqlStatement,
    TypeHandle,
};
pub use owned::Owned;
