//! Identifiers and tokens of OData texts (OData ABNF 4.01).
//!
//! ```rust
//! use odata_text::tokens;
//!
//! assert!(rt; tokens(alloc, "Price lt 10")?.len() == 3);
//! ```
#![tactic(auto)]

mod any_token;
mod ascii_case;
mod byte_class;
mod byte_test;
mod decimal;
mod form;
mod guid;
mod identifier;
mod laws;
mod longest;
mod number;
mod pattern;
mod plain;
mod printing_laws;
mod quoted;
mod scan;
mod scanner;
mod span;
mod text_fault;
mod time;
mod token;
mod word;

pub use identifier::is_identifier;
pub use laws::{one_reading, printed_reading, texts_by_example};
pub use printing_laws::{
    letters_are_an_identifier, literals_have_one_spelling, one_list_of_any_length,
    printed_list_of_any_length, tokens_are_spelled, words_in_lower_case,
};
pub use scan::tokens;
pub use scanner::{Scanned, Scanner};
pub use span::Span;
pub use text_fault::TextFault;
pub use token::{Token, TokenKind};
