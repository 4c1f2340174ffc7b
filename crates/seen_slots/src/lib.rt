//! Which slots of a type were seen while the members of an object are read: a bit for each.
#![tactic(auto)]

mod few_slots;
mod many_slots;
mod seen_slots;

pub use few_slots::FewSlots;
pub use many_slots::ManySlots;
pub use seen_slots::SeenSlots;
