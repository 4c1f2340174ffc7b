//! Entities: JSON objects read as values of an entity type (OData JSON Format 4.01, sections 4.5 and 7).
//!
//! ```rust
//! use edm_entities::Entity;
//!
//! match Entity::from_json(alloc, &schema, id, &json) {
//!     Ok(entity) => count(&entity),
//!     Err(fault) => report(&fault),
//! }
//! ```
#![tactic(auto)]

mod entity;
mod flaw;
mod json_node;
mod json_walk;
mod kept_row;
mod laws;
mod leaf;
mod member_walk;
mod property_cursor;
mod row_fault;
mod scalar;
mod tape_node;
mod text_entity;
mod text_fault;

pub use entity::Entity;
pub use laws::{
    a_slot_holds_its_property, example_rows, one_fault_is_first, one_value_fits,
    spelled_values_lie_within, what_fits_has_its_type, what_has_a_fault_fits_nothing,
};
pub use row_fault::RowFault;
pub use text_fault::TextFault;
