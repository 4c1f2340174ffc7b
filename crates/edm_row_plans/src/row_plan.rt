ghost use Rattle.std.specs.Prelude.{◌≡◌, ◌⊎◌, [], false, IsTrue};
ghost use Rattle.csdl_schema.specs.ExpansionView.{paths_in};
ghost use Rattle.csdl_schema.specs.PathSet.{PropertyPath};
ghost use Rattle.csdl_schema.specs.SchemaModel.{HoldsType};
ghost use Rattle.edm_row_plans.specs.Plans.{IsPlanOf};

use super::type_plan::{TypePlan, type_plans};
use csdl_schema::{Expansion, Schema, TypeId};
use std::alloc::Global;

/// The plan by which rows of a type are read, looked up once in its schema. It borrows nothing of the schema. It has
/// the types that rows may hold, by what is expanded in them. A whole plan has that expanded which it was made for.
#[derive(Drop)]
pub struct RowPlan {
    pub type_id: TypeId,
    pub expansion: Expansion,
    pub is_whole: bool,
    pub plans: Vec<TypePlan>,
}

impl RowPlan {
    /// Creates the plan of an entity type, with that expanded. If an allocation fails it has fewer of the types that a
    /// row may hold, or nothing is expanded, and rows are read through JSON values. Where something is to be expanded,
    /// its clauses say nothing of a plan that is not whole.
    pub fn new(alloc: Global, schema: &Schema, type_id: TypeId, expansion: &Expansion) -> RowPlan
        requires { HoldsType schema.now type_id }
        ensures schema { IsPlanOf schema.now result }
        ensures type_id { result.type_id ≡ type_id }
        ensures expansion { (result.expansion ≡ expansion.now)
            ⊎ ((path : PropertyPath) → paths_in result.expansion path ≡ false) }
        ensures whole { IsTrue result.is_whole → result.expansion ≡ expansion.now }
        ensures unexpanded { expansion.now ≡ [] → IsTrue result.is_whole }
    {
        match expansion.copy(alloc) {
            Ok(copy) => RowPlan::with(alloc, schema, type_id, copy, true),
            Err(_) => RowPlan::with(alloc, schema, type_id, Expansion::none(alloc), false),
        }
    }

    /// The plan in which that is expanded, and whether it is whole.
    fn with(
        alloc: Global,
        schema: &Schema,
        type_id: TypeId,
        expansion: Expansion,
        is_whole: bool,
    ) -> RowPlan
        requires { HoldsType schema.now type_id }
        ensures schema { IsPlanOf schema.now result }
        ensures type_id { result.type_id ≡ type_id }
        ensures expansion { result.expansion ≡ expansion }
        ensures whole { result.is_whole ≡ is_whole }
    {
        let plans = type_plans(alloc, schema, type_id, &expansion);
        RowPlan {
            type_id,
            expansion,
            is_whole,
            plans,
        }
    }
}
