//! Nodes of a checked filter as nodes of SQL, each in one of four forms: its value, its code, or a condition that is
//! true exactly where the node is true, or false.
//!
//! A node is written by a call within the call for the one around it. Functions that hold operands stay out of line
//! (`#[inline(never)]`), so that each level of nodes takes 1.5 KB of stack at most.
//!
//! ```rust
//! let mut draft = Draft::new(alloc);
//! put_keeps(&context, &mut draft, 0)?; // a condition that is true exactly where the filter is
//! ```
#![tactic(auto)]

mod arithmetic_forms;
mod call_forms;
mod code;
mod comparison_forms;
mod in_path;
mod keeps;
mod lambda;
mod lift;
mod list_forms;
mod operand_forms;
mod path_value;
mod terms;
mod truth;
mod value_forms;

pub use code::put_code;
pub use keeps::put_keeps;
pub use terms::Form;
