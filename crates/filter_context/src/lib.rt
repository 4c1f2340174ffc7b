//! What a walk of a checked filter's list goes by: the range variables around a node with their values, and how the walk
//! takes a node. The definitions say what stands at an index of the list, for the evaluator and for conditions of SQL.
//!
//! ```rust
//! use filter_context::{Frames, at_level};
//!
//! let innermost = at_level(&Frames::Bound(&variable, &value, &outer), level);
//! ```
#![tactic(auto)]

mod frames;
mod walk_class;

pub use frames::{AtLevel, Frames, RangeVariable, at_level};
pub use walk_class::{WalkClass, walk_of_kind};
