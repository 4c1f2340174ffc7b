//! What an expression evaluates to on an entity, and what that costs (OData URL Conventions 4.01, section 5.1.1): the
//! definitions `Means` and `Costs`, and their laws as contracts of functions that do nothing.
//!
//! ```rust
//! use odata_meaning::typed_trees_end_once;
//!
//! // Whoever calls it knows that a typed expression has exactly one outcome.
//! typed_trees_end_once();
//! ```
#![tactic(auto)]

mod laws;

pub use laws::{
    canonical_texts_keep_outcomes, entities_end_once_at_paths, first_run_comes_to, members_come_to,
    members_cost, one_by_one, typed_trees_cost_once_on_entities, typed_trees_end_once,
    typed_trees_end_once_at_paths, typed_trees_end_once_on_entities, unread_operands_stand_alone,
    values_have_one_outcome, values_have_types_at_paths,
};
