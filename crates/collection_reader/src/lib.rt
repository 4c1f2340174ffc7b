//! The items of a collection, each as a line, while its document comes in pieces.
//!
//! ```rust
//! use collection_reader::ItemReader;
//!
//! let mut lines = BufReader::new(alloc, ItemReader::new(alloc, file))?;
//! ```
#![tactic(auto)]

mod document;
mod document_end;
mod envelope;
mod item_reader;
mod item_run;
mod item_scan;
mod kind;
mod lines_in_place;
mod nest;
mod stops;
mod value_name;

pub use item_reader::ItemReader;
