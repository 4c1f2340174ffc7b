//! A tree of SQL while it is made of a checked filter: what the nodes of the filter are as operands, the paths to the
//! values of a row, and what the nodes that are put say of rows.
#![tactic(auto)]

mod draft;
mod paths;
mod sql_context;
mod sql_operand;

pub use draft::Draft;
pub use paths::{put_member_path, put_path};
pub use sql_context::{Kind, SqlContext, kind_of, type_of_field};
pub use sql_operand::{Operand, Source};
