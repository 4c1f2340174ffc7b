//! What trees of SQL evaluate to on the rows of a table that keeps entities.
#![tactic(auto)]

mod laws;

pub use laws::{
    chains_may_be_balanced, tables_are_comparisons, tables_are_connectives, tables_beside_null,
    trees_by_example, trees_have_one_meaning,
};
