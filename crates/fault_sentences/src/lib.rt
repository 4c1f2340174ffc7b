//! Sentences for people about the faults of schemas, queries, filters, rows and evaluations, and hints.
//!
//! ```rust
//! use fault_sentences::{FaultClass, Report, fault_sentence};
//! use odata_text::Span;
//!
//! let span = Span { start: 0, stop: 5 };
//! let (class, text) = (FaultClass::Typing, "Prize lt 10");
//! let report = Report { class, number: 1, span, text, type_name: None };
//! if let Some(sentence) = fault_sentence(alloc, &report)? {
//!     println!(rt; "{sentence}")?;
//! }
//! ```
#![tactic(auto)]

mod fault_class;
mod hint;
mod report;
mod sentence;
mod subject;
mod template;
mod typing_templates;

pub use fault_class::FaultClass;
pub use hint::{Hint, hint_about};
pub use report::Report;
pub use sentence::fault_sentence;
