//! Enumerations, and the texts that spell their values (CSDL JSON 4.01, section 10; OData ABNF 4.01, section 7).
//!
//! ```rust
//! use edm_enumerations::Enumeration;
//! use edm_values::Prim;
//!
//! let mut colors = Enumeration::new(alloc, Prim::Int32, true);
//! colors.add_member("Red".to_owned(alloc)?, 1)?;
//! colors.add_member("Blue".to_owned(alloc)?, 4)?;
//! assert!(rt; colors.value_of("Red,Blue") == Some(5));
//! ```
#![tactic(auto)]

mod enumeration;
mod laws;
mod pieces;

pub use enumeration::Enumeration;
pub use laws::{texts_have_one_value, values_by_example};
