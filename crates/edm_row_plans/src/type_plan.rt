//! The types that a row may hold, looked up once for all rows: a plan has of each slot its property, and what is expanded
//! after it.
ghost use Rattle.std.specs.Prelude.{◌≡◌, List, slice_get, Some, IfSome, IsTrue};
ghost use Rattle.csdl_schema.specs.ExpansionView.{StepModel};
ghost use Rattle.csdl_schema.specs.SchemaModel.{SchemaModel};
ghost use Rattle.edm_row_plans.specs.Plans.{ArePlanned, ArePlans, IsPlan, target_at};

use super::expansion_node::{WalkContext, expanded_target, node_behind};
use csdl_schema::{Expansion, Property, PropertyKind, Schema, TypeId};
use std::alloc::Global;

/// How many types have plans, and how many slots these have together.
const TYPES: usize = 512;

const SLOTS: usize = 8_192;

/// A slot of a type.
#[derive(Clone, Copy, Drop)]
pub struct SlotPlan {
    pub property: Property,
    /// The node of the expansion after it.
    pub node: Option<usize>,
    /// The entity type to which it navigates, if it is expanded.
    pub target: Option<TypeId>,
    /// Where the plan of its complex or entity type is to be. Whoever goes there looks whether it is that (`plan_at`).
    pub record: usize,
}

/// A type after a node of the expansion, with its slots in order.
#[derive(Drop)]
pub struct TypePlan {
    pub type_id: TypeId,
    pub node: Option<usize>,
    pub slots: Vec<SlotPlan>,
}

/// A type that rows need, after a node of the expansion.
#[derive(Drop)]
struct NeededType {
    type_id: TypeId,
    node: Option<usize>,
}

#[inline(always)]
fn are_same_nodes(node: Option<usize>, other: Option<usize>) -> bool
    ensures { IsTrue result → node ≡ other }
{
    match node {
        Some(node) => match other {
            Some(other) => node == other,
            None => false,
        },
        None => match other {
            Some(_) => false,
            None => true,
        },
    }
}

/// The index of a type among others; how many there are, if it is not there.
fn place_among(types: &[NeededType], type_id: TypeId, node: Option<usize>) -> usize {
    for place in 0..types.len() {
        if types[place].type_id == type_id && are_same_nodes(types[place].node, node) {
            return place;
        }
    }
    types.len()
}

/// The same, and a type that is not there is put there.
fn place_for(types: &mut Vec<NeededType>, type_id: TypeId, node: Option<usize>) -> Option<usize> {
    let place = place_among(types.as_slice(), type_id, node);
    if place == types.len() && types.push(NeededType { type_id, node }).is_err() {
        return None;
    }
    Some(place)
}

/// Where the plan of the type that a property holds is to be: at index 0 if it holds no complex or entity type.
fn record_of(
    kind: PropertyKind,
    target: Option<TypeId>,
    node: Option<usize>,
    types: &mut Vec<NeededType>,
) -> Option<usize> {
    match kind {
        PropertyKind::Complex(type_id) => place_for(types, type_id, node),
        PropertyKind::Navigation => match target {
            Some(type_id) => place_for(types, type_id, node),
            None => Some(0),
        },
        _ => Some(0),
    }
}

/// The slot of a property, with the node after it.
fn slot_plan(
    context: &WalkContext<'_>,
    property: &Property,
    node: Option<usize>,
    record: usize,
) -> SlotPlan
    ensures property { result.property ≡ property.now }
    ensures node { result.node ≡ node }
    ensures target { result.target ≡ target_at context.now.expansion.now node property.now }
{
    SlotPlan {
        property: *property,
        node,
        target: expanded_target(context, property, node),
        record,
    }
}

fn slot_plans(
    context: &WalkContext<'_>,
    type_id: TypeId,
    node: Option<usize>,
    types: &mut Vec<NeededType>,
) -> Option<Vec<SlotPlan>>
    ensures { IfSome result (λ slots.
        ArePlanned context.now.schema.now context.now.expansion.now type_id node slots.items) }
{
    let mut slots = Vec::new(context.alloc);
    for slot in 0..context.schema.slots(type_id) {
        let property = context.schema.property(type_id, slot);
        let kind = property.kind;
        let after = node_behind(context, node, context.schema.slot_name(type_id, slot));
        let target = expanded_target(context, property, after);
        let Some(record) = record_of(kind, target, after, types) else {
            return None;
        };
        if slots
            .push(slot_plan(context, property, after, record))
            .is_err()
        {
            return None;
        }
    }
    Some(slots)
}

/// The plan of a type of at most that many slots.
fn type_plan(
    context: &WalkContext<'_>,
    type_id: TypeId,
    node: Option<usize>,
    most: usize,
    types: &mut Vec<NeededType>,
) -> Option<TypePlan>
    ensures { IfSome result (IsPlan context.now.schema.now context.now.expansion.now) }
{
    if context.schema.slots(type_id) > most {
        return None;
    }
    match slot_plans(context, type_id, node, types) {
        Some(slots) => Some(TypePlan {
            type_id,
            node,
            slots,
        }),
        None => None,
    }
}

/// The plans of a type and of those that its properties need, the type's own first. They are fewer where they are too
/// many, or where an allocation failed.
pub fn type_plans(
    alloc: Global,
    schema: &Schema,
    type_id: TypeId,
    expansion: &Expansion,
) -> Vec<TypePlan>
    ensures { ArePlans schema.now expansion.now result.items }
{
    let context = WalkContext {
        alloc,
        schema,
        expansion,
    };
    let mut plans = Vec::new(alloc);
    let mut types = Vec::new(alloc);
    let mut most = SLOTS;
    let first = NeededType {
        type_id,
        node: Some(0),
    };
    if types.push(first).is_err() {
        return plans;
    }
    for place in 0..TYPES {
        if place >= types.len() {
            return plans;
        }
        let (needed, node) = (types[place].type_id, types[place].node);
        let Some(plan) = type_plan(&context, needed, node, most, &mut types) else {
            return plans;
        };
        most = most.saturating_sub(plan.slots.len());
        if plans.push(plan).is_err() {
            return plans;
        }
    }
    plans
}

/// Returns the plan of a type after a node, if it is at that index. Its clauses say nothing of `None`.
#[inline(always)]
pub fn plan_at(
    plans: &[TypePlan],
    place: usize,
    type_id: TypeId,
    node: Option<usize>,
) -> Option<&TypePlan>
    ensures at { IfSome result (λ plan. slice_get plans.now place ≡ Some plan.now) }
    ensures of_type { IfSome result (λ plan. plan.now.type_id ≡ type_id) }
    ensures of_node { IfSome result (λ plan. plan.now.node ≡ node) }
    ensures plan { (schema : SchemaModel) (steps : List StepModel)
        → ArePlans schema steps plans.now → IfSome result (λ plan. IsPlan schema steps plan.now) }
{
    if place >= plans.len() {
        return None;
    }
    let plan = &plans[place];
    if plan.type_id == type_id && are_same_nodes(plan.node, node) {
        Some(plan)
    } else {
        None
    }
}
