//! The items of a collection, judged one by one where they stand in its document, or as lines.
#![tactic(auto)]

mod collection_lines;
mod document_walk;
mod item_judge;

pub use collection_lines::item_lines;
pub use document_walk::judged_items;
pub use item_judge::JudgesItems;
