//! What a checked filter evaluates to on an entity (OData URL Conventions 4.01, section 5.1.1).
//!
//! ```rust
//! use odata_eval::{Verdict, evaluate};
//!
//! if evaluate(alloc, &filter, &entity, &now)? == Verdict::True {
//!     kept.push(entity)?;
//! }
//! ```
#![tactic(auto)]

mod and_chain;
mod bounded_evaluator;
mod budget;
mod collection_walk;
mod datum_walk;
mod eval_context;
mod evaluator;
mod kept_arithmetic;
mod kept_operands;
mod kept_terms;
mod lambda_walk;
mod logical;
mod node_value;
mod number_walk;
mod passed_tests;
mod stop;
mod truth_walk;
mod value_tests;
mod verdict;
mod walk_operand;

pub use bounded_evaluator::evaluate_within;
pub use evaluator::{evaluate, evaluate_with};
pub use node_value::{Evaluation, evaluate_node};
pub use odata_filter_operations::EvalFault;
pub use value_tests::{SlotSieve, SlotTests, slot_sieves};
pub use verdict::Verdict;
