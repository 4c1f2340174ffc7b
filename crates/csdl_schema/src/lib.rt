//! Types declared in CSDL JSON 4.01: from a document to the schema that it stands for, and its look-ups.
//!
//! ```rust
//! use csdl_schema::Schema;
//!
//! let schema = Schema::read(alloc, br#"{"$Version":"4.01","M":{"A":{"$Kind":"EntityType","Name":{}}}}"#)?;
//! let id = schema.type_named("M.A").ok_or("no such type")?;
//! assert!(rt; schema.slot(id, "Name") == Some(0));
//! ```
#![tactic(auto)]

mod base_refusals;
mod chain;
mod check_bases;
mod ids;
mod laws;
mod named_type;
mod place_types;
mod primitive_name;
mod property;
mod property_names;
mod property_piece;
mod read;
mod read_bases;
mod resolve;
mod schema;
mod slots;
mod type_at;
mod type_index;
mod unread_types;

pub use csdl_declarations::{SchemaFault, declared_in_order, numbers_of_their_type, types_by_name};
pub use ids::{EnumId, TypeId};
pub use laws::{
    bases_end, cycles_have_no_chain, documents_by_example, least_name_stands_twice,
    names_as_declared, one_answer, slots_as_declared,
};
pub use odata_expansion::Expansion;
pub use property::{Property, PropertyKind};
pub use property_piece::PropertyPiece;
pub use schema::Schema;
