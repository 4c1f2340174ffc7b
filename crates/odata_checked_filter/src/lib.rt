//! A checked filter: a tree as one list of its nodes, each with its type, and what is asked of it (OData URL
//! Conventions 4.01, section 5.1.1).
//!
//! ```rust
//! use odata_typing::check;
//!
//! let filter = check(alloc, &schema, id, "Price add 1 lt 10")?;
//! assert!(rt; filter.node_count() == 5);
//! assert!(rt; filter.canonical(alloc)?.as_str() == "Price add 1 lt 10");
//! assert!(rt; !filter.uses_now());
//! ```
#![tactic(auto)]

mod called;
mod checked;
mod checked_node;
mod explanation;
mod kind_words;
mod lambda_depth;
mod laws;
mod list_cow;
mod needed_paths;
mod node_list;
mod path_steps;
mod printed_list;
mod property_paths;
mod stored_filter;

pub use checked::Checked;
pub use checked_node::{CheckedNode, NodeKind};
pub use laws::{
    a_list_is_read_as_its_tree, a_list_stands_for_one_tree, canonical_texts_keep_filters,
    nodes_stand_where_they_are_put, numbers_have_one_type_and_slot, property_paths_stand_once,
};
pub use needed_paths::expansion_of;
pub use node_list::NodeList;
pub use stored_filter::StoredFilter;
