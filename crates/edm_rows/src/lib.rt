//! Rows of one type, read straight from lines with room: each value is held to its type where it stands, and only those
//! that a filter names become values.
#![tactic(auto)]

mod absent_slots;
mod first_row;
mod held_schema;
mod kept_leaf;
mod kept_tree;
mod kept_value;
mod layout_reader;
mod literals;
mod members;
mod passed_value;
mod row_cache;
mod row_layout;
mod row_types;
mod slot_marks;
mod type_rows;

pub use held_schema::HeldSchema;
pub use layout_reader::LayoutReader;
pub use row_layout::RowLayout;
pub use type_rows::{ItemReading, Reading, TypeRows};
