//! The types of a schema, listed: each with its properties, their types, and which of them are not read.
//!
//! ```rust
//! use type_listing::TypeListing;
//!
//! let listing = TypeListing::read(alloc, br#"{"$Version":"4.01","M":{"A":{"$Kind":"EntityType","Name":{}}}}"#)?;
//! assert!(rt; listing.text(alloc, 0)?.as_str() == "entity M.A\n  Name Edm.String");
//! ```
#![tactic(auto)]

mod declared_types;
mod listed_property;
mod named_types;
mod standard_types;
mod type_listing;
mod type_object;

pub use declared_types::names_a_type;
pub use named_types::{TypeName, primitive_name, property_type_name, type_names};
pub use type_listing::TypeListing;
