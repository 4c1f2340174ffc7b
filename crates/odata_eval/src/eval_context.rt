//! What a walk of a filter's list goes by.
ghost use Rattle.std.specs.Prelude.{◌≡◌, ◌<◌, [], Some, Vec, cond, length, slice_get};
ghost use Rattle.std.specs.declared.alloc.Global.{Global};
ghost use Rattle.edm_values.specs.declared.value.Value.{Value, Record, Moment as MomentValue};
ghost use Rattle.csdl_schema.specs.SchemaModel.{properties_at, slots_of};
ghost use Rattle.edm_entities.specs.Row.{IsEntity};
ghost use Rattle.odata_checked_filter.specs.Filter.{IsFilter};
ghost use Rattle.odata_signatures.specs.declared.edm_type.ValueType.{ValueType};
ghost use Rattle.filter_context.specs.Frames.{StandsAtLevel, frame_of, names_of};
ghost use Rattle.odata_eval.specs.private.Lambda.{IsOverMembers, IsVariableOf, Suits};
ghost use Rattle.filter_context.specs.private.EvalContext.{EndsOnceHere, HoldsAt};
ghost use Rattle.filter_context.specs.private.ContextModel.{IsBeside, environment_of, with_frame};
ghost use Rattle.odata_meaning.specs.Costs.{item_cost};
ghost use Rattle.odata_eval.specs.private.Spending.{CostsOnceHere};

use edm_entities::Entity;
use edm_values::{Moment, Value};
use filter_context::{AtLevel, Frames, RangeVariable, at_level};
use odata_checked_filter::{Checked, CheckedNode};
use odata_meaning::{typed_trees_cost_once_on_entities, typed_trees_end_once_on_entities};
use odata_signatures::EdmType;
use std::alloc::Global;
use std::marker::Model;

/// A filter, an entity of its type, a moment and range variables, with what the walk reads of them looked up.
#[derive(Drop)]
pub(crate) struct EvalContext<'e, 'c, 'r> {
    checked: &'e Checked<'c>,
    entity: &'e Entity<'r>,
    moment: &'e Moment,
    nodes: &'e [CheckedNode],
    values: &'e [Value],
    slots: &'e [Value],
    now_value: &'e Value,
    frames: Frames<'e>,
    alloc: Global,
}

impl<'e, 'c, 'r> Model for EvalContext<'e, 'c, 'r> {
    ghost use Rattle.odata_checked_filter.specs.contracts.checked_node.CheckedNode as checked_node;
    ghost use Rattle.edm_values.specs.contracts.value.Value as value;
    ghost use Rattle.std.specs.Coded.{codes};
    ghost use Rattle.filter_context.specs.Frames.{frames_in};
    ghost use Rattle.filter_context.specs.private.ContextModel.{ContextModel, IsContext, context_in};

    ghost Value = { ContextModel };

    ghost coded = { Prim.hlevel (codes, checked_node.the_row.coded, value.the_row.coded) };

    ghost view = { λ s. context_in s.entity.now s.moment.now s.checked.now.list (frames_in s.frames) };

    ghost invariant = { λ s. IsContext (context_in s.entity.now s.moment.now s.checked.now.list (frames_in s.frames))
        s.nodes.now s.values.now s.slots.now s.now_value.now };
}

/// The fields of a record. Any other value has none.
pub(crate) fn fields_of(value: &Value) -> &[Value]
    ensures { (held : Vec Value Global) → value.now ≡ Record held → result.now ≡ held.items }
{
    match value {
        Value::Record(fields) => fields.as_slice(),
        _ => &[],
    }
}

/// The type of a collection's members. Any other type has none but itself.
fn type_of_members(edm_type: EdmType) -> EdmType
    ensures { (member : ValueType) → edm_type ≡ EdmType.Collection member → result ≡ EdmType.Single member }
{
    match edm_type {
        EdmType::Collection(member) => EdmType::Single(member),
        other => other,
    }
}

impl<'e, 'c, 'r> EvalContext<'e, 'c, 'r> {
    /// The context of a filter, an entity and a moment, without variables. `now_value` is the moment as a value, which
    /// the caller keeps.
    pub(crate) fn of(
        alloc: Global,
        checked: &'e Checked<'c>,
        entity: &'e Entity<'r>,
        moment: &'e Moment,
        now_value: &'e Value,
    ) -> EvalContext<'e, 'c, 'r>
        requires { now_value.now ≡ MomentValue moment.now }
        ensures row { result.row ≡ entity.entry.now }
        ensures moment { result.moment ≡ moment.entry.now }
        ensures list { result.list ≡ checked.entry.now.list }
        ensures variables { result.frames ≡ [] }
    {
        let slots = fields_of(entity.value());
        EvalContext {
            checked,
            entity,
            moment,
            nodes: checked.nodes(),
            values: checked.values(),
            slots,
            now_value,
            frames: Frames::Empty,
            alloc,
        }
    }

    /// A copy, whose variables `bind` sets.
    #[inline(always)]
    pub(crate) fn copy<'f>(&'f self) -> EvalContext<'f, 'c, 'r>
        ensures { result ≡ self.entry.now }
    {
        EvalContext {
            checked: self.checked,
            entity: self.entity,
            moment: self.moment,
            nodes: self.nodes,
            values: self.values,
            slots: self.slots,
            now_value: self.now_value,
            frames: self.frames,
            alloc: self.alloc,
        }
    }

    /// Takes the variables of the context around it, and one more, the innermost, at this value.
    #[inline(always)]
    pub(crate) fn bind(
        &mut self,
        outer: &'e EvalContext<'e, 'c, 'r>,
        variable: &'e RangeVariable<'e>,
        value: &'e Value,
    )
        requires beside { IsBeside self.old outer.now }
        requires suits { Suits outer.now variable.now value.now }
        ensures { self.new ≡ with_frame outer.entry.now (frame_of variable.entry.now value.entry.now) }
    {
        self.frames = Frames::Bound(variable, value, &outer.frames);
    }

    /// The variable of the lambda operator at an index. It has the type of the members of the operator's base.
    pub(crate) fn variable_bound(&self, place: usize) -> RangeVariable<'e>
        requires { IsOverMembers self.now.list place }
        ensures { IsVariableOf self.now.list place result }
    {
        let nodes = self.nodes();
        RangeVariable {
            name: self.checked.text(place),
            edm_type: type_of_members(nodes[place + 1].edm_type),
        }
    }

    /// A law: an expression that has a type has exactly one outcome here.
    pub(crate) fn ends_once(&self)
        ensures { EndsOnceHere self.now }
    {
        typed_trees_end_once_on_entities();
        let _entity = &self.entity;
        // The moment is one that a literal can spell.
        let (_civil, _offset) = (self.moment.civil(), self.moment.offset_minutes());
    }

    /// A law: an expression that has a type has exactly one cost here.
    pub(crate) fn costs_once(&self)
        ensures { CostsOnceHere self.now }
    {
        typed_trees_cost_once_on_entities();
        let _entity = &self.entity;
        // The moment is one that a literal can spell.
        let (_civil, _offset) = (self.moment.civil(), self.moment.offset_minutes());
    }

    /// Whether a range variable is around.
    pub(crate) fn is_within_body(&self) -> bool
        ensures { item_cost (environment_of self.now) ≡ cond result 1 0 }
    {
        matches!(self.frames, Frames::Bound(_, _, _))
    }

    /// The nodes of the filter's list.
    pub(crate) fn nodes(&self) -> &'e [CheckedNode]
        ensures { result.now ≡ self.now.list.nodes }
    {
        self.nodes
    }

    /// The node at an index.
    pub(crate) fn node(&self, place: usize) -> &'e CheckedNode
        requires { place < length self.now.list.nodes }
        ensures { slice_get self.now.list.nodes place ≡ Some result.now }
    {
        &self.nodes()[place]
    }

    /// A literal's value.
    pub(crate) fn literal(&self, place: usize) -> &'e Value
        requires { place < length self.now.list.values }
        ensures { slice_get self.now.list.values place ≡ Some result.now }
    {
        let values = self.values;
        &values[place]
    }

    /// The value in a slot of the entity.
    pub(crate) fn property(&self, slot: usize) -> &'e Value
        requires { slot < length (properties_at self.now.row.schema self.now.row.type_id) }
        ensures { HoldsAt self.now.row slot result.now }
    {
        let slots = self.slots;
        &slots[slot]
    }

    /// The entity's value.
    pub(crate) fn value(&self) -> &'e Value
        ensures { result.now ≡ self.now.row.value }
    {
        self.entity.value()
    }

    /// The value of the variable around which so many are. The only variable is taken at once.
    #[inline(always)]
    pub(crate) fn variable(&self, level: usize) -> &'e Value
        requires { level < length (names_of (environment_of self.now)) }
        ensures { StandsAtLevel (slots_of self.now.row.schema) (environment_of self.now) level result.now }
    {
        if let Frames::Bound(_, value, outer) = self.frames {
            if let Frames::Empty = *outer {
                return value;
            }
        }
        self.variable_among(level)
    }

    /// The same, where several are around.
    #[inline(never)]
    fn variable_among(&self, level: usize) -> &'e Value
        requires { level < length (names_of (environment_of self.now)) }
        ensures { StandsAtLevel (slots_of self.now.row.schema) (environment_of self.now) level result.now }
    {
        let frames = self.frames;
        match at_level(&frames, level) {
            AtLevel::There(value) => value,
            // More variables are around than the level.
            AtLevel::Fewer(_) => unreachable!(),
        }
    }

    /// What texts that are made take their memory from.
    pub(crate) fn alloc(&self) -> Global {
        self.alloc
    }

    /// The moment that `now` stands for.
    pub(crate) fn now_value(&self) -> &'e Value
        ensures { result.now ≡ MomentValue self.now.moment }
    {
        self.now_value
    }
}
