//! Which member of an object is expected next, by the rows before. What is expected is compared with what stands there.
#![tactic(auto)]

mod next_slots;
mod undeclared_names;

pub use next_slots::NextSlots;
pub use undeclared_names::{NotedName, UndeclaredNames};
