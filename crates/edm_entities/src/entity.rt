ghost use Rattle.std.specs.Prelude.{◌≡◌, false, Some, IfOk, IfErr, IfSome};
ghost use Rattle.serde_json.specs.View.{view};

use super::flaw::row_fault;
use super::json_node::JsonNode;
use super::json_walk::read_slots;
use super::kept_row::KeptRow;
use super::row_fault::RowFault;
use csdl_schema::{Expansion, Schema, TypeId};
use edm_row_plans::WalkContext;
use edm_values::Value;
use std::alloc::Global;
use std::marker::Model;

/// A value that conforms to an entity type of a schema.
#[derive(Drop)]
pub struct Entity<'s> {
    schema: &'s Schema,
    type_id: TypeId,
    kept: KeptRow<'s>,
}

impl<'s> Model for Entity<'s> {
    ghost use Rattle.edm_entities.specs.Row.{Row, IsEntity};
    ghost use Rattle.std.specs.Coded.{codes};
    ghost use Rattle.edm_values.specs.contracts.value.Value as value_contract;

    ghost Value = { Row };

    ghost coded = { Prim.hlevel (codes, value_contract.the_row.coded) };

    ghost use Rattle.edm_entities.specs.private.KeptRows.{row_kept};

    ghost view = { λ e. row_kept e.schema.now e.type_id e.kept };

    ghost invariant = { λ e. IsEntity (row_kept e.schema.now e.type_id e.kept) };
}

impl<'s> Entity<'s> {
    ghost use Rattle.csdl_schema.specs.ExpansionView.{paths_in};
    ghost use Rattle.csdl_schema.specs.PathSet.{PropertyPath};
    ghost use Rattle.csdl_schema.specs.SchemaModel.{HoldsType, properties_at, slots_of, type_name_at};
    ghost use Rattle.edm_values.specs.Val.{Val};
    ghost use Rattle.edm_entities.specs.Fits.{Fits};
    ghost use Rattle.edm_entities.specs.Row.{expanded_by, row_with, value_of, IsEntity};
    ghost use Rattle.edm_entities.specs.RowFaults.{IsRowFault, IsMemory};
    ghost use Rattle.edm_entities.specs.ValuesRead.{IsRowValue};
    ghost use Rattle.edm_entities.specs.private.KeptRows.{row_kept};
    ghost use Rattle.edm_row_plans.specs.Expanded.{slots_at};

    /// Reads a JSON object as an entity of that type. Members that the type does not declare are ignored, and so are
    /// opaque and navigation properties. The first fault in the order of the slots is returned, depth first.
    pub fn from_json(
        alloc: Global,
        schema: &'s Schema,
        type_id: TypeId,
        row: &serde_json::Value,
    ) -> Result<Entity<'s>, RowFault>
        requires { HoldsType schema.now type_id }
        ensures of_type { IfOk result (λ e. (e.schema ≡ schema.now) × (e.type_id ≡ type_id)) }
        ensures fits { IfOk result (λ e.
            Fits (slots_of schema.now) (type_name_at schema.now type_id) (view row.now) (value_of e)) }
        ensures none_fits { IfErr result (λ fault. ¬ (IsMemory fault) → (value : Val)
            → ¬ (Fits (slots_of schema.now) (type_name_at schema.now type_id) (view row.now) value)) }
        ensures first_fault { IfErr result (λ fault. ¬ (IsMemory fault)
            → IsRowFault (slots_of schema.now) (type_name_at schema.now type_id) (view row.now) fault) }
        ensures expansion { IfOk result (λ e. (path : PropertyPath) → paths_in e.expansion path ≡ false) }
    {
        let nothing = Expansion::none(alloc);
        Entity::expanded_from_json(alloc, schema, type_id, &nothing, row)
    }

    /// Reads a JSON object, with navigation properties expanded, as an entity. Those on the paths of that set, which
    /// lead to a target, are read. An absent one is `NotExpanded`.
    pub fn expanded_from_json(
        alloc: Global,
        schema: &'s Schema,
        type_id: TypeId,
        expansion: &Expansion,
        row: &serde_json::Value,
    ) -> Result<Entity<'s>, RowFault>
        requires { HoldsType schema.now type_id }
        ensures of_type { IfOk result (λ e. (e.schema ≡ schema.now) × (e.type_id ≡ type_id)) }
        ensures expansion { IfOk result (λ e. e.expansion ≡ expansion.now) }
        ensures fits { IfOk result (λ e. Fits (expanded_by schema.now expansion.now)
            (type_name_at schema.now type_id) (view row.now) (value_of e)) }
        ensures none_fits { IfErr result (λ fault. ¬ (IsMemory fault) → (value : Val)
            → ¬ (Fits (expanded_by schema.now expansion.now) (type_name_at schema.now type_id) (view row.now) value)) }
        ensures first_fault { IfErr result (λ fault. ¬ (IsMemory fault) → IsRowFault
            (expanded_by schema.now expansion.now) (type_name_at schema.now type_id) (view row.now) fault) }
    {
        let context = WalkContext {
            alloc,
            schema,
            expansion,
        };
        match read_slots(&context, type_id, Some(0), &JsonNode::Tree(row)) {
            Ok(values) => match expansion.copy(alloc) {
                Ok(copy) => {
                    let kept = KeptRow::Own(copy, Value::Record(values));
                    Ok(Entity::of_row(schema, type_id, kept))
                }
                Err(_) => Err(RowFault::Memory),
            },
            Err(fault) => Err(row_fault(fault)),
        }
    }

    /// Reads a JSON object as an entity's value, as `expanded_from_json` does. It is a record, with the properties'
    /// values by slot. `None` where it is none, or out of memory. Its clause says nothing of `None`.
    pub fn value_from_json(
        alloc: Global,
        schema: &Schema,
        type_id: TypeId,
        expansion: &Expansion,
        row: &serde_json::Value,
    ) -> Option<Value>
        ensures { IfSome result
            (IsRowValue (slots_at schema.now expansion.now (Some 0)) (properties_at schema.now type_id)) }
    {
        let context = WalkContext {
            alloc,
            schema,
            expansion,
        };
        let Ok(values) = read_slots(&context, type_id, Some(0), &JsonNode::Tree(row)) else {
            return None;
        };
        Some(Value::Record(values))
    }

    /// The entity of that type with this value, which is not its own, where that is expanded.
    #[inline(always)]
    pub fn borrowed(
        schema: &'s Schema,
        type_id: TypeId,
        expansion: &'s Expansion,
        value: &'s Value,
    ) -> Entity<'s>
        requires { IsEntity (row_with schema.now type_id expansion.now value.now) }
        ensures { result ≡ row_with schema.now type_id expansion.now value.now }
    {
        Entity::of_row(schema, type_id, KeptRow::Borrowed(expansion, value))
    }

    /// The entity of that type with this value, where that is expanded.
    #[inline(always)]
    pub(crate) fn of_row(schema: &'s Schema, type_id: TypeId, kept: KeptRow<'s>) -> Entity<'s>
        requires { IsEntity (row_kept schema.now type_id kept) }
        ensures { result ≡ row_kept schema.now type_id kept.entry }
    {
        Entity {
            schema,
            type_id,
            kept,
        }
    }

    /// Returns the schema of its type.
    pub fn schema(&self) -> &'s Schema
        ensures { result.now ≡ self.now.schema }
    {
        self.schema
    }

    /// Returns its type.
    pub fn type_id(&self) -> TypeId
        ensures { result ≡ self.now.type_id }
    {
        self.type_id
    }

    /// Returns what is expanded in it.
    pub fn expansion(&self) -> &Expansion
        ensures { result.now ≡ self.now.expansion }
    {
        self.kept.expansion()
    }

    /// Returns its value: a record, with the properties' values by slot.
    pub fn value(&self) -> &Value
        ensures value { result.now ≡ self.now.value }
        ensures entity { IsEntity self.now }
    {
        self.kept.value()
    }
}
