//! How rows of a type are read, looked up once.
ghost use Rattle.std.specs.Prelude.{◌≡◌, ◌⊎◌, ℕ, [], slice_get, IfSome};
ghost use Rattle.edm_row_plans.specs.Plans.{IsPlanOf};
ghost use Rattle.edm_rows.specs.HeldSchema.{schema_in};
ghost use Rattle.edm_rows.specs.private.HeldRows.{AreTypesOf};
ghost use Rattle.edm_rows.specs.private.RowSlots.{IsFreshType};

use super::held_schema::HeldSchema;
use super::row_types::{RowType, row_types};
use super::slot_marks::keep_types;
use csdl_schema::{Expansion, Schema};
use edm_row_plans::{RowPlan, plan_at};
use std::alloc::Global;
use std::marker::Model;

/// What rows of a plan's type are read by: their schema, and the types that they may hold. It does not change, so many
/// readers may share it.
#[derive(Drop)]
pub struct RowLayout<'s> {
    pub(crate) schema: HeldSchema<'s>,
    pub(crate) plan: RowPlan,
    /// Those of the plan; none where rows are not read so.
    pub(crate) types: Vec<RowType>,
}

impl<'s> Model for RowLayout<'s> {
    ghost use Rattle.edm_rows.specs.RowLayout.{LayoutOfRows};
    ghost use Rattle.edm_rows.specs.private.LayoutRows.{IsLayout, layout_seen};

    ghost Value = { LayoutOfRows };

    ghost view = { layout_seen };

    ghost invariant = { IsLayout };
}

impl<'s> RowLayout<'s> {
    /// The layout of rows by that plan.
    pub fn new(alloc: Global, schema: HeldSchema<'s>, plan: RowPlan) -> RowLayout<'s>
        requires { IsPlanOf (schema_in schema) plan }
        ensures schema { result.schema ≡ schema_in schema.entry }
        ensures type_id { result.type_id ≡ plan.type_id }
        ensures expansion { result.expansion ≡ plan.expansion }
        ensures whole { result.is_whole ≡ plan.is_whole }
    {
        let mut types = types_of(alloc, schema.schema(), &plan);
        keep_types(&mut types);
        RowLayout {
            schema,
            types,
            plan,
        }
    }

    /// Returns what is expanded in the rows.
    pub fn expansion(&self) -> &Expansion
        ensures { result.now ≡ self.now.expansion }
    {
        &self.plan.expansion
    }
}

/// The types of a plan, of which the first is that of its rows; none where rows are not read so.
pub(crate) fn types_of(alloc: Global, schema: &Schema, plan: &RowPlan) -> Vec<RowType>
    requires { IsPlanOf schema.now plan.now }
    ensures types { (result.items ≡ []) ⊎ AreTypesOf schema.now plan.now result.items }
    ensures fresh { (place : ℕ) → IfSome (slice_get result.items place) IsFreshType }
{
    if !plan.is_whole {
        return Vec::new(alloc);
    }
    let Some(_root) = plan_at(plan.plans.as_slice(), 0, plan.type_id, Some(0)) else {
        return Vec::new(alloc);
    };
    match row_types(alloc, schema, plan) {
        Some(types) => types,
        None => Vec::new(alloc),
    }
}
