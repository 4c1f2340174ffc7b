//! What the operators and functions of a filter make of the evaluator's values, each as an outcome (OData URL
//! Conventions 4.01, sections 5.1.1.1 to 5.1.1.8 and 5.1.1.13).
//!
//! ```rust
//! use edm_values::Value;
//! use odata_filter_operations::{compare_kept, datum_of, number_of};
//! use odata_syntax::ComparisonOperator;
//!
//! let price = Value::Int(5);
//! assert!(rt; compare_kept(ComparisonOperator::Lt, &price, &Value::Int(10)));
//! assert!(rt; number_of(&datum_of(&price)) == Some(5));
//! ```
#![tactic(auto)]

mod collections;
mod eval_fault;
mod function_calls;
mod operators;
mod stored_values;
mod text_costs;

pub use collections::{ComparedMembers, among, any_item_of, count_of, flags_of};
pub use eval_fault::EvalFault;
pub use function_calls::{called_on_one, called_on_three, called_on_two};
pub use operators::{calculated, compare_kept, compare_numbers, negated};
pub use stored_values::{
    datum_of, datum_of_number, datum_of_truth, kept_number, kept_truth, number_of, step, truth_of,
};
pub use text_costs::{comparison_cost, cost_of_one, cost_of_three, cost_of_two, stored_cost};
