//! What the operators and functions of a filter make of values: logic, comparison, bits, arithmetic, texts and dates
//! (OData URL Conventions 4.01, sections 5.1.1.1, 5.1.1.2, 5.1.1.5, 5.1.1.7 and 5.1.1.8). Only `concat`, `to_lower` and
//! `to_upper` take memory.
//!
//! ```rust
//! use edm_values::Prim;
//! use odata_functions::{ArithFault, and3, arith, index_of};
//! use odata_syntax::ArithmeticOperator;
//!
//! assert!(rt; and3(Some(true), None).is_none());
//! assert!(rt; index_of("Contoso", "os") == Ok(4));
//! assert!(rt; arith(ArithmeticOperator::Div, Prim::Int32, Some(7), Some(0)) == Err(ArithFault::DivideByZero));
//! ```
#![tactic(auto)]

mod arithmetic;
mod bits;
mod comparability;
mod comparison;
mod connectives;
mod date_parts;
mod function_laws;
mod kept_text;
mod laws;
mod made_text;
mod pair;
mod promoting;
mod text_case;
mod text_parts;
mod text_search;
mod white_space;

pub use arithmetic::{ArithFault, arith, negate};
pub use bits::has_bits;
pub use comparability::comparable;
pub use comparison::{compare, compare_values};
pub use connectives::{and3, not3, or3};
pub use date_parts::{
    date_of, day_of, hour_of, minute_of, month_of, offset_of, second_of, year_of,
};
pub use function_laws::{day_numbers_have_one_date, texts_have_one_answer};
pub use kept_text::{part_of_text, rest_of_text, trim_text};
pub use laws::{
    arithmetic_has_one_answer, bits_are_decided, comparisons_are_decided, divisions_are_unique,
    operands_lie_within_promotion, texts_in_byte_order,
};
pub use made_text::{concat, to_lower, to_upper};
pub use pair::{Compared, Pair};
pub use promoting::{negation_type, promotion};
pub use text_case::lower_starts_with;
pub use text_parts::{substring, trim};
pub use text_search::{contains, ends_with, index_of, starts_with, text_length};
