//! The names that are nearest to a mistyped one.
//!
//! ```rust
//! use near_names::NearNames;
//!
//! let mut near = NearNames::new("prise");
//! for name in ["Name", "Price"] {
//!     near.offer(name);
//! }
//! assert!(rt; near.first() == Some("Price"));
//! ```
#![tactic(auto)]

mod name_distance;
mod nearest;

pub use nearest::NearNames;
