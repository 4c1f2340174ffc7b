//! What a caller says of a table in which entities are stored: its form by a number, and lines that name columns.
//!
//! ```rust
//! let Some((dialect, by_columns)) = form_of(0) else { .. };
//! let (moment, names) = split_first_line("\nID=product_id\nName=title");
//! if are_known(schema, item, names) {
//!     let columns = columns_of(alloc, schema, item, names)?; // a column for each property, by slot
//! }
//! ```
#![tactic(auto)]

mod first_line;
mod known_lines;
mod named_columns;
mod table_form;

pub use first_line::split_first_line;
pub use known_lines::are_known;
pub use named_columns::columns_of;
pub use table_form::form_of;
