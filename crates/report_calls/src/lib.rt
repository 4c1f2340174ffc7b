//! Calls over handles that report what is at fault, what a filter says in SQL, and the types of a schema, for a library
//! of C: names, sentences and JSON of faults, conditions of SQL as JSON or as a handle, and types in lines.
//!
//! ```rust
//! let status = calls::fault_name(17, 1, &mut text, &mut answer);
//! let name = &text[..answer.length]; // BadCharacter
//! ```
#![tactic(auto)]

pub mod calls;
mod fault_reports;
mod json_calls;
mod name_calls;
mod sentence_calls;
mod sql_calls;
mod sql_handles;
mod statement_calls;
mod type_lines;
