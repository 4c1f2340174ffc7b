//! Sentences about faulty filters that know the schema, and what to write instead.
//!
//! ```rust
//! use fault_sentences::{FaultClass, Report};
//! use filter_hints::{FilterOf, advise};
//! use odata_text::Span;
//!
//! let text = "prise gt 5";
//! let span = Span { start: 0, stop: 5 };
//! let report = Report { class: FaultClass::Typing, number: 1, span, text, type_name: None };
//! if let Some(sentence) = advise(alloc, &FilterOf { schema: &schema, id, report: &report })? {
//!     println!(rt; "{sentence}")?;
//! }
//! ```
#![tactic(auto)]

mod advised_sentence;
mod called_function;
mod edit;
mod filter_of;
mod hint;
mod listed_items;
mod operand_type;
mod operand_types;
mod quoted_value;
mod standard_names;
mod syntax_advice;
mod syntax_tree;
mod trial;
mod type_words;
mod typed_literal;
mod typing_advice;
mod unknown_enumeration;
mod unknown_property;
mod unread_property;
mod wanted_operands;
mod words_around;

pub use advised_sentence::{advise, advise_with_edits};
pub use edit::Edit;
pub use filter_of::FilterOf;
pub use hint::Hint;
