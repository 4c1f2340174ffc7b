//! Trees of SQL over the rows of a table, and their texts for PostgreSQL and SQLite.
#![tactic(auto)]

mod depth;
mod dialect;
mod functions;
mod json_path;
mod laws;
mod leaf_text;
mod look_up;
mod node_pieces;
mod parameter;
mod path_text;
mod piece_texts;
mod printer_frames;
mod quoted_name;
mod sql_node;
mod sql_printer;
mod storage;
mod there;
mod tree;

pub use depth::parser_depth;
pub use dialect::Dialect;
pub use json_path::{Base, Path, Step};
pub use laws::texts_are_balanced;
pub use look_up::LookUp;
pub use parameter::Parameter;
pub use sql_node::{Carrier, Digit, FieldType, SqlFunction, SqlNode, SqlType};
pub use sql_printer::print;
pub use storage::{Storage, Table};
pub use there::names_what_is;
pub use tree::SqlTree;
