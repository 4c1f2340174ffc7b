//! Filters over the entities of a collection while its document comes in pieces.
//!
//! ```rust
//! use odata_pages::filter_page;
//!
//! let tally = filter_page(alloc, &filter, &now, response, &mut kept)?;
//! ```
#![tactic(auto)]

mod page;
mod page_end;

pub use page::filter_page;
