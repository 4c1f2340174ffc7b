//! Values of the Entity Data Model, and the literals that spell them (OData ABNF 4.01, section 7). Each literal is read
//! into the one value that it spells, and each value is written as a literal that is read back.
//!
//! ```rust
//! use edm_values::{read_date, read_int, write_int};
//!
//! assert!(rt; read_int("-5") == Some(-5));
//! assert!(rt; read_int("9223372036854775808").is_none());
//! assert!(rt; read_date("2023-02-29").is_none());
//! ```
#![tactic(auto)]

mod date_literal;
mod datum;
mod digits;
mod guid_literal;
mod int_literal;
mod laws;
mod moment;
mod moment_literal;
mod moment_order;
mod primitive;
mod sieve;
mod sparse;
mod string_literal;
mod value;

pub use date_literal::{read_date, write_date};
pub use datum::Datum;
pub use guid_literal::{read_guid, write_guid};
pub use int_literal::{read_int, write_int};
pub use laws::{
    dates_read_back, guids_by_example, guids_read_back, ints_read_back, moments_are_ordered,
    moments_by_example, moments_read_back, strings_read_back, texts_have_one_value,
};
pub use moment::Moment;
pub use moment_literal::{read_moment, write_moment};
pub use primitive::PrimitiveType as Prim;
pub use sieve::Sieve;
pub use sparse::take_few;
pub use string_literal::{LitFault, read_string, write_string};
pub use value::Value;
