//! Faults as JSON objects, for programs.
//!
//! ```rust
//! use fault_json::{LocatedFault, fault_json};
//! use fault_sentences::{FaultClass, Report};
//! use odata_text::Span;
//!
//! let span = Span { start: 0, stop: 5 };
//! let report = Report { class: FaultClass::Typing, number: 1, span, text: "prise gt 5", type_name: None };
//! let filtered = Some((&schema, id));
//! let fault = LocatedFault { report, filtered, file: None, line: None, column: None };
//! if let Some(object) = fault_json(alloc, &fault)? {
//!     println!(rt; "{object}")?;
//! }
//! ```
#![tactic(auto)]

mod class_names;
mod fault_object;
mod located_fault;
mod utf16_span;

pub use fault_object::{fault_json, no_row_json, no_row_sentence};
pub use located_fault::{AbsentRow, LocatedFault};
