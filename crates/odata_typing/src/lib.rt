//! The checker: which texts are filters, each as a list of typed nodes, and what is wrong with the others (OData URL
//! Conventions 4.01, section 5.1.1).
//!
//! ```rust
//! use odata_typing::{Refusal, check};
//!
//! match check(alloc, &schema, id, "Price lt 'a'") {
//!     Ok(filter) => println!(rt; "{} nodes", filter.node_count())?,
//!     Err(Refusal::Typing(fault)) => println!(rt; "bytes {} to {}", fault.span.start, fault.span.stop)?,
//!     Err(other) => println!(rt; "{other}")?,
//! }
//! ```
#![tactic(auto)]

mod binary_node;
mod call_node;
mod check_context;
mod checker;
mod enumeration_literal;
mod in_list;
mod judged_list;
mod lambda_node;
mod laws_below;
mod literal_node;
mod node_walk;
mod operand_text;
mod property_node;
mod reading;
mod resolved_text;
mod unary_node;
mod variables;

pub use checker::{check, check_to_store};
pub use odata_checked_filter::{
    Checked, CheckedNode, NodeKind, StoredFilter, a_list_is_read_as_its_tree,
    a_list_stands_for_one_tree, canonical_texts_keep_filters, numbers_have_one_type_and_slot,
};
pub use odata_signatures::{
    EdmType, Refusal, TypeFault, TypeFaultCode, ValueType, a_filter_of_items_is_boolean,
    a_number_is_no_text, canonical_texts_keep_types, canonical_texts_need_the_same,
    literals_have_one_value, normal_forms_keep_types, quoting_trees_are_texts,
    texts_have_one_refusal, trees_have_one_type, typed_trees_are_clear,
    unread_operands_have_one_reason, untypable_nodes_start_apart,
};
