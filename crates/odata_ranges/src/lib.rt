//! What the values of a checked filter's nodes lie within, on every entity: whether a node may evaluate to a fault or
//! to null, and how great its numbers and how long its texts may be.
#![tactic(auto)]

mod arithmetic_ranges;
mod bounds;
mod function_ranges;
mod laws;
mod leaf_ranges;
mod list_ranges;
mod named_properties;
mod node_form;
mod node_lookups;
mod operator_ranges;
mod range;
mod ranges;

pub use arithmetic_ranges::is_safe;
pub use function_ranges::may_exceed_int32;
pub use laws::entities_are_kept;
pub use named_properties::owner_of;
pub use range::Range;
pub use ranges::ranges_of;
