//! What nodes of a checked filter evaluate to, by what their operands do, and where SQL makes the same of that: laws, as
//! contracts of functions that do nothing.
//!
//! ```rust
//! use sql_outcomes::nodes_go_by_operands;
//!
//! // Whoever calls it knows what a comparison makes of its two sides, faults of these among it.
//! nodes_go_by_operands();
//! ```
#![tactic(auto)]

mod laws;

pub use laws::{comparisons_agree, connectives_agree, counts_agree, nodes_go_by_operands};
