//! Entities that are read from their texts.
ghost use Rattle.std.specs.Prelude.{◌≡◌, ℕ, List, Some, IfErr, IfOk};
ghost use Rattle.serde_json.specs.Data.{Data};
ghost use Rattle.csdl_schema.specs.JsonText.{IsJsonOf};
ghost use Rattle.csdl_schema.specs.SchemaModel.{HoldsType, type_name_at};
ghost use Rattle.edm_entities.specs.private.Walk.{slots_in};
ghost use Rattle.edm_entities.specs.Fits.{Fits};
ghost use Rattle.edm_entities.specs.Row.{expanded_by, value_of};
ghost use Rattle.edm_entities.specs.TextFaults.{IsTextFault};
ghost use Rattle.edm_entities.specs.private.JsonNodes.{data_of};
ghost use Rattle.edm_entities.specs.private.TextValues.{AreValuesOf};

use super::entity::Entity;
use super::flaw::row_fault;
use super::json_node::JsonNode;
use super::json_walk::read_slots;
use super::kept_row::KeptRow;
use super::row_fault::RowFault;
use super::tape_node::TapeNode;
use super::text_fault::TextFault;
use csdl_schema::{Expansion, Schema, TypeId};
use edm_row_plans::WalkContext;
use edm_values::Value;
use json::{Error, MAX_LEN, Scratch, Tape};
use std::alloc::Global;

/// How deep arrays and objects may nest in a text.
const DEPTH: usize = 127;

impl<'s> Entity<'s> {
    /// Reads the text of a JSON object as an entity, as `expanded_from_json` reads its value. It takes at most 30 times
    /// its bytes, and what its values take.
    pub fn expanded_from_text(
        alloc: Global,
        schema: &'s Schema,
        type_id: TypeId,
        expansion: &Expansion,
        text: &[u8],
    ) -> Result<Entity<'s>, TextFault>
        requires { HoldsType schema.now type_id }
        ensures of_type { IfOk result (λ e. (e.schema ≡ schema.now) × (e.type_id ≡ type_id)) }
        ensures expansion { IfOk result (λ e. e.expansion ≡ expansion.now) }
        ensures fits { IfOk result (λ e. (json : Data) × IsJsonOf text.now json
            × Fits (expanded_by schema.now expansion.now) (type_name_at schema.now type_id) json (value_of e)) }
        ensures fault { IfErr result (IsTextFault (expanded_by schema.now expansion.now)
            (type_name_at schema.now type_id) text.now) }
    {
        let context = WalkContext {
            alloc,
            schema,
            expansion,
        };
        match text_values(&context, type_id, text) {
            Ok(values) => match expansion.copy(alloc) {
                Ok(copy) => {
                    let kept = KeptRow::Own(copy, Value::Record(values));
                    Ok(Entity::of_row(schema, type_id, kept))
                }
                Err(_) => Err(TextFault::NoEntity(RowFault::Memory)),
            },
            Err(fault) => Err(fault),
        }
    }
}

/// The values of the properties of a type in slot order, from the text of a JSON object.
fn text_values(
    context: &WalkContext<'_>,
    type_id: TypeId,
    text: &[u8],
) -> Result<Vec<Value>, TextFault>
    ensures values { IfOk result (λ values. AreValuesOf context.now type_id text.now values.items) }
    ensures fault { IfErr result (IsTextFault (slots_in context.now (Some 0))
        (type_name_at context.now.schema.now type_id) text.now) }
{
    match str::from_utf8(text) {
        Ok(text) => if text.len() > MAX_LEN {
            tree_values(context, type_id, text)
        } else {
            tape_values(context, type_id, text)
        },
        Err(_) => Err(TextFault::NotJson),
    }
}

/// The same by a tape.
fn tape_values(
    context: &WalkContext<'_>,
    type_id: TypeId,
    text: &str,
) -> Result<Vec<Value>, TextFault>
    ensures values { IfOk result (λ values. AreValuesOf context.now type_id text.now values.items) }
    ensures fault { IfErr result (IsTextFault (slots_in context.now (Some 0))
        (type_name_at context.now.schema.now type_id) text.now) }
{
    let mut scratch = Scratch::new(context.alloc);
    let tape = match Tape::parse(text, &mut scratch, Vec::new(context.alloc)) {
        Ok(tape) => tape,
        Err(Error::Invalid) => return Err(TextFault::NotJson),
        Err(_) => return Err(TextFault::NoEntity(RowFault::Memory)),
    };
    match TapeNode::of_tape(&tape, DEPTH) {
        Some(node) => node_values(context, type_id, &JsonNode::Tape(node)),
        None => Err(TextFault::NotJson),
    }
}

/// The same by a tree, of a text that is too long for a tape.
fn tree_values(
    context: &WalkContext<'_>,
    type_id: TypeId,
    text: &str,
) -> Result<Vec<Value>, TextFault>
    ensures values { IfOk result (λ values. AreValuesOf context.now type_id text.now values.items) }
    ensures fault { IfErr result (IsTextFault (slots_in context.now (Some 0))
        (type_name_at context.now.schema.now type_id) text.now) }
{
    match serde_json::Value::from_str(context.alloc, text) {
        Ok(json) => node_values(context, type_id, &JsonNode::Tree(&json)),
        Err(error) => {
            if error.is_memory() {
                Err(TextFault::NoEntity(RowFault::Memory))
            } else {
                Err(TextFault::NotJson)
            }
        }
    }
}

/// The same of the JSON value that the text is.
fn node_values(
    context: &WalkContext<'_>,
    type_id: TypeId,
    json: &JsonNode<'_, '_>,
) -> Result<Vec<Value>, TextFault>
    ensures values { (text : List ℕ) → IsJsonOf text (data_of json.now)
        → IfOk result (λ values. AreValuesOf context.now type_id text values.items) }
    ensures fault { (text : List ℕ) → IsJsonOf text (data_of json.now) → IfErr result
        (IsTextFault (slots_in context.now (Some 0)) (type_name_at context.now.schema.now type_id) text) }
{
    match read_slots(context, type_id, Some(0), json) {
        Ok(values) => Ok(values),
        Err(fault) => Err(TextFault::NoEntity(row_fault(fault))),
    }
}
