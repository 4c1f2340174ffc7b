//! Faults of all that is read, by numbers and names, and where each is.
//!
//! ```rust
//! use fault_numbers::{FaultKind, Numbered, fault_name};
//! use odata_filter_operations::EvalFault;
//!
//! let number = EvalFault::Overflow.number();
//! assert!(rt; fault_name(FaultKind::Evaluation, number) == Some("Overflow"));
//! ```
#![tactic(auto)]

mod fault_number;

pub use fault_number::{FaultKind, Numbered, fault_name, refusal_span, row_fault_path};
