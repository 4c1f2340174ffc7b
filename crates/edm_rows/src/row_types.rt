//! The types that a row may hold, of which each slot says in one word how its values are passed.
ghost use Rattle.std.specs.Prelude.{◌≡◌, ◌<◌, ℕ, [], length, slice_get, None, IfSome, IsTrue, false};
ghost use Rattle.csdl_schema.specs.PropertyView.{property_type, target_of};
ghost use Rattle.csdl_schema.specs.SchemaModel.{SchemaModel, Slots};
ghost use Rattle.edm_row_plans.specs.Expanded.{target_if};
ghost use Rattle.edm_row_plans.specs.Plans.{ArePlans};
ghost use Rattle.edm_entities.specs.Row.{val_of};
ghost use Rattle.edm_rows.specs.private.Passed.{FitsSeen};
ghost use Rattle.edm_rows.specs.private.RowSlots.{AreFew, AreRowTypes, IsFresh, IsFreshType, IsRowType};
ghost use Rattle.edm_rows.specs.private.RowTypes.{AreSureDigits, HasRecord, IsKindOf, IsMadeOf, IsPrimitiveTask};
ghost use Rattle.edm_rows.specs.private.RowTypes.{IsTaskAs, nullable_as};

use csdl_schema::{EnumId, Property, Schema, TypeId};
use edm_row_plans::{
    RowPlan, SlotPlan, TypePlan, Wanted, may_hold_null, navigates, plan_at, wanted_with,
};
use edm_values::{Prim, Sieve, Value};
use json_room::SpelledKey;
use seen_slots::{ManySlots, SeenSlots};
use spare_values::Spare;
use std::alloc::Global;

/// How deep objects and arrays may nest in a row.
pub(crate) const DEPTH: usize = 127;

/// How many slots a type may have.
const SLOTS: usize = 1024;

/// How many slots have marks in one word.
pub(crate) const FEW_SLOTS: usize = 64;

/// How many entries there are to store the order of members.
const PLACES: usize = 1024;

/// What a value, or an item, is held to.
#[derive(Clone, Copy, Debug, PartialEq, Eq)]
pub(crate) enum Task {
    Text,
    Number,
    Truth,
    Date,
    Moment,
    Guid,
    Member,
    Record,
    Items,
    Any,
}

/// A slot of a type.
#[derive(Drop)]
pub(crate) struct RowSlot {
    pub(crate) key: SpelledKey,
    pub(crate) task: Task,
    pub(crate) item: Task,
    pub(crate) is_kept: bool,
    /// Its index among those of its type.
    pub(crate) index: usize,
    /// A row is left out whose value it rejects.
    pub(crate) sieve: Sieve,
    pub(crate) is_nullable: bool,
    /// Its bit of the word that marks it.
    pub(crate) bit: u64,
    /// So many digits, and one less than that, always write a number of the type.
    pub(crate) sure: usize,
    /// Where the order of members after it is kept.
    pub(crate) order: usize,
    /// The node of the expansion after it.
    pub(crate) node: Option<usize>,
    /// The index of its records' plan.
    pub(crate) record: usize,
    /// What its values, or items, may be filled again from.
    pub(crate) spare: Spare,
    pub(crate) prim: Prim,
    pub(crate) member_of: Option<EnumId>,
}

/// A type with its slots in order.
#[derive(Drop)]
pub(crate) struct RowType {
    pub(crate) type_id: TypeId,
    /// The node of the expansion that it is after.
    pub(crate) node: Option<usize>,
    pub(crate) slots: Vec<RowSlot>,
    /// All slots, and those that may be absent.
    pub(crate) all: ManySlots,
    pub(crate) optional: ManySlots,
    /// Whether no type of the plan has more slots than a word has bits.
    pub(crate) all_few: bool,
    /// Where the order of an object's first member is kept.
    pub(crate) order: usize,
}

/// How single values, or items, are passed.
#[derive(Clone, Copy, Drop)]
struct SlotKind {
    task: Task,
    prim: Prim,
    member_of: Option<EnumId>,
    sure: usize,
}

fn task_of_prim(prim: Prim) -> Task
    ensures { IsPrimitiveTask prim result }
{
    match prim {
        Prim::String => Task::Text,
        Prim::Bool => Task::Truth,
        Prim::Date => Task::Date,
        Prim::DateTimeOffset => Task::Moment,
        Prim::Guid => Task::Guid,
        Prim::Byte => Task::Number,
        Prim::SByte => Task::Number,
        Prim::Int16 => Task::Number,
        Prim::Int32 => Task::Number,
        Prim::Int64 => Task::Number,
    }
}

/// So many digits always write a number of a type of numbers.
fn sure_digits(prim: Prim) -> usize
    ensures { AreSureDigits prim result }
{
    match prim {
        Prim::Byte => 2,
        Prim::SByte => 2,
        Prim::Int16 => 4,
        Prim::Int32 => 9,
        Prim::Int64 => 16,
        Prim::Bool => 0,
        Prim::String => 0,
        Prim::Date => 0,
        Prim::DateTimeOffset => 0,
        Prim::Guid => 0,
    }
}

/// How what is wanted is passed; anything, where nothing is.
fn kind_of(wanted: Option<Wanted>) -> SlotKind
    ensures { IsKindOf wanted result }
{
    let Some(wanted) = wanted else {
        return other_kind(Task::Any, None);
    };
    match wanted {
        Wanted::Prim(prim) => SlotKind {
            task: task_of_prim(prim),
            prim,
            member_of: None,
            sure: sure_digits(prim),
        },
        Wanted::Enum(id) => other_kind(Task::Member, Some(id)),
        Wanted::Complex(_) => other_kind(Task::Record, None),
    }
}

/// How values of no primitive type are passed.
fn other_kind(task: Task, member_of: Option<EnumId>) -> SlotKind
    ensures task { result.task ≡ task }
    ensures member_of { result.member_of ≡ member_of }
{
    SlotKind {
        task,
        prim: Prim::String,
        member_of,
        sure: 0,
    }
}

/// How all values of a property are passed, where a single one is passed so.
fn task_as(item: Task, many: bool) -> Task
    ensures { IsTaskAs item many result }
{
    if !many {
        return item;
    }
    match item {
        Task::Any => Task::Any,
        _ => Task::Items,
    }
}

/// Whether the single value of a property, or an item of it, may be null.
fn is_nullable_as(property: &Property) -> bool
    ensures { result ≡ nullable_as property.now }
{
    if property.many {
        may_hold_null(property)
    } else {
        property.nullable
    }
}

/// Whether a property may be absent. A navigation property that is expanded may not.
fn may_be_absent(plan: &SlotPlan) -> bool
    ensures { (schema : SchemaModel) (slots : Slots)
        → plan.now.target ≡ target_if (slots.needed []) (target_of plan.now.property) → IsTrue result
        → FitsSeen slots plan.now.property.nullable (property_type schema plan.now.property) None (val_of Value.Null) }
{
    let Some(_wanted) = wanted_with(&plan.property, plan.target) else {
        return true;
    };
    if plan.property.many {
        return false;
    }
    if !plan.property.nullable {
        return false;
    }
    !navigates(&plan.property)
}

/// The slot of a plan whose index is known; the order of the members after it is stored at an index.
fn row_slot(
    alloc: Global,
    plan: &SlotPlan,
    index: usize,
    order: usize,
    name: &str,
) -> Option<RowSlot>
    requires order { order < 1024 }
    ensures made { IfSome result (IsMadeOf index name.now plan.now) }
    ensures fresh { IfSome result IsFresh }
{
    let kind = kind_of(wanted_with(&plan.property, plan.target));
    let Some(key) = SpelledKey::new(alloc, name) else {
        return None;
    };
    let spare = match kind.task {
        Task::Record => Spare::Record(plan.record),
        Task::Text => Spare::Text,
        _ => Spare::Other,
    };
    Some(RowSlot {
        key,
        task: task_as(kind.task, plan.property.many),
        item: kind.task,
        is_kept: false,
        index,
        sieve: Sieve::All,
        is_nullable: is_nullable_as(&plan.property),
        bit: 1 << (index % 64),
        sure: kind.sure,
        order,
        node: plan.node,
        record: plan.record,
        spare,
        prim: kind.prim,
        member_of: kind.member_of,
    })
}

/// Whether the records of a slot have the plan that it points to.
fn has_record(plans: &[TypePlan], plan: &SlotPlan) -> bool
    ensures { IsTrue result → HasRecord plans.now plan.now }
{
    let Some(wanted) = wanted_with(&plan.property, plan.target) else {
        return true;
    };
    match wanted {
        Wanted::Complex(id) => match plan_at(plans, plan.record, id, plan.node) {
            Some(_) => true,
            None => false,
        },
        Wanted::Prim(_) => true,
        Wanted::Enum(_) => true,
    }
}

/// The type of the plan at an index; the order of the members of its objects is stored from another index on.
fn row_type(
    alloc: Global,
    schema: &Schema,
    plan: &RowPlan,
    place: usize,
    order: usize,
) -> Option<RowType>
    requires plans { ArePlans schema.now plan.now.expansion plan.now.plans.items }
    requires place { place < length plan.now.plans.items }
    requires order { order < 1024 }
    ensures planned { IfSome result (λ type. IfSome (slice_get plan.now.plans.items place)
        (λ p. IsRowType schema.now plan.now.expansion plan.now.plans.items p type)) }
    ensures fresh { IfSome result IsFreshType }
{
    let of = &plan.plans[place];
    if of.slots.len() > SLOTS {
        return None;
    }
    let mut slots = Vec::new(alloc);
    let mut all = ManySlots::none();
    let mut optional = ManySlots::none();
    for index in 0..of.slots.len() {
        let one = &of.slots[index];
        let name = schema.slot_name(of.type_id, index);
        let next = (order + index + 1) % PLACES;
        let Some(slot) = row_slot(alloc, one, index, next, name) else {
            return None;
        };
        if !has_record(plan.plans.as_slice(), one) {
            return None;
        }
        all.mark(slot.index, slot.bit);
        if may_be_absent(one) {
            optional.mark(slot.index, slot.bit);
        }
        if slots.push(slot).is_err() {
            return None;
        }
    }
    Some(RowType {
        type_id: of.type_id,
        node: of.node,
        slots,
        all,
        optional,
        all_few: false,
        order,
    })
}

/// Whether no type of these has more slots than a word has bits.
fn have_few_slots(plans: &[TypePlan]) -> bool
    ensures { IsTrue result → AreFew plans.now }
{
    for place in 0..plans.len() {
        if plans[place].slots.len() > FEW_SLOTS {
            return false;
        }
    }
    true
}

/// The types of a plan, in its order; none where one of them is not read so.
pub(crate) fn row_types(alloc: Global, schema: &Schema, plan: &RowPlan) -> Option<Vec<RowType>>
    requires { ArePlans schema.now plan.now.expansion plan.now.plans.items }
    ensures planned { IfSome result (λ types.
        AreRowTypes schema.now plan.now.expansion plan.now.plans.items types.items) }
    ensures fresh { IfSome result (λ types. (place : ℕ) → IfSome (slice_get types.items place) IsFreshType) }
{
    let all_few = have_few_slots(plan.plans.as_slice());
    let mut types = Vec::new(alloc);
    let mut order = 0;
    for place in 0..plan.plans.len() {
        let Some(row_type) = row_type(alloc, schema, plan, place, order) else {
            return None;
        };
        order = (order + row_type.slots.len() + 1) % PLACES;
        if types
            .push(RowType {
                all_few,
                ..row_type
            })
            .is_err()
        {
            return None;
        }
    }
    Some(types)
}
