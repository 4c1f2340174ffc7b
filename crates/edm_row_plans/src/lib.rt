//! What rows are read by: the types that they may hold, looked up once in a schema, by what is expanded in them.
//!
//! ```rust
//! use csdl_schema::Expansion;
//! use edm_row_plans::RowPlan;
//!
//! let plan = RowPlan::new(alloc, &schema, id, &Expansion::none(alloc));
//! assert!(rt; plan.is_whole);
//! ```
#![tactic(auto)]

mod expansion_node;
mod row_plan;
mod type_plan;
mod wanted;

pub use expansion_node::{WalkContext, expanded_target, node_behind};
pub use row_plan::RowPlan;
pub use type_plan::{SlotPlan, TypePlan, plan_at};
pub use wanted::{Wanted, may_hold_null, navigates, wanted_with};
