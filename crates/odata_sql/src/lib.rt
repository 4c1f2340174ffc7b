//! Conditions of SQL that say of the rows of a table what a checked filter says of the entities that they keep (OData
//! URL Conventions 4.01, section 5.1.1).
//!
//! ```rust
//! let found = translate(alloc, &checked, Storage::Document("doc"), Dialect::Sqlite, &now)?;
//! let text = conditions_json(alloc, &found, Dialect::Sqlite)?; // {"fault":..,"keep":..,"outcome":..}
//! ```
#![tactic(auto)]

mod columns;
mod json_text;
mod laws;
mod nesting;
mod nul_free;
mod sql_fault;
mod translation;

pub use json_text::conditions_json;
pub use laws::columns_suffice;
pub use sql_fault::SqlFault;
pub use translation::{Conditions, Statement, translate};
