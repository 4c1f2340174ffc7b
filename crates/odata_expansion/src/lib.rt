//! Sets of property paths: what is expanded in rows (OData URL Conventions 4.01, sections 5.1.1.15 and 5.1.3).
//!
//! ```rust
//! use odata_expansion::Expansion;
//!
//! let mut needed = Expansion::none(alloc);
//! needed.add(&["Orders", "Items"])?;
//! assert!(rt; needed.needs(&["Orders", "Items"]));
//! assert!(rt; !needed.needs(&["Items"]));
//! ```
#![tactic(auto)]

mod expansion;
mod steps;

pub use expansion::Expansion;
