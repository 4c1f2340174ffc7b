//! What a CSDL JSON 4.01 document declares: its types, each by itself, or the first fault among them.
//!
//! ```rust
//! use csdl_declarations::declared_types;
//! use serde_json::Value;
//!
//! let document = Value::from_slice(alloc, br#"{"$Version":"4.01","M":{"A":{"$Kind":"EntityType"}}}"#)?;
//! assert!(rt; declared_types(alloc, &document)?.len() == 1);
//! ```
#![tactic(auto)]

mod declaration;
mod declared_type;
mod document;
mod laws;
mod member;
mod names;
mod namespaces;
mod read_enumeration;
mod read_properties;
mod read_types;
mod refusals;
mod schema_fault;
mod type_kind;

pub use declared_type::{DeclaredType, PropertyDeclaration, TypeBody};
pub use document::declared_types;
pub use laws::{declared_in_order, numbers_of_their_type, types_by_name};
pub use schema_fault::SchemaFault;
