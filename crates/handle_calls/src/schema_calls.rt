//! A schema and its types.
ghost use Rattle.std.specs.Prelude.{◌≡◌, MatchResult};
ghost use Rattle.csdl_schema.specs.SchemaModel.{HoldsType, IsEntityAt};
ghost use Rattle.handle_calls.specs.SchemaCalls.{IsNoSchema, IsNoType, IsSchemaOf, IsTypeOf, first_name, second_name};
ghost use Rattle.handle_calls.specs.Reports.{ReportsNames};

use call_handles::{Answer, Fault, Handle, SchemaHandle, TypeHandle, write_both};
use csdl_schema::{Expansion, Schema, SchemaFault, TypeId};
use edm_row_plans::RowPlan;
use edm_rows::{HeldSchema, RowLayout};
use fault_numbers::Numbered;
use std::alloc::Global;
use std::sync::Arc;

/// The schema of a document.
pub(crate) fn schema_of(alloc: Global, document: &[u8]) -> Result<Handle, Fault>
    ensures { MatchResult result (IsSchemaOf document.now) (IsNoSchema document.now) }
{
    let schema = match Schema::read(alloc, document) {
        Ok(schema) => schema,
        Err(SchemaFault::Memory) => return Err(Fault::Memory),
        Err(fault) => return Err(Fault::Schema(fault)),
    };
    match Arc::new(alloc, schema) {
        Ok(schema) => Ok(Handle::Schema(SchemaHandle { schema })),
        Err(_) => Err(Fault::Memory),
    }
}

/// An entity type with its schema, and a layout of its rows.
fn type_handle(alloc: Global, schema: &Arc<Schema>, id: TypeId) -> Result<Handle, Fault>
    requires held { HoldsType schema.now.value id }
    requires entity { IsEntityAt schema.now.value id }
    ensures { MatchResult result (λ made. made ≡ Handle.Type (record { schema = schema.now.value; id = id }))
        (λ fault. fault ≡ Fault.Memory) }
{
    let Ok(shared) = Arc::try_clone(schema) else {
        return Err(Fault::Memory);
    };
    let plan = RowPlan::new(alloc, schema, id, &Expansion::none(alloc));
    let layout = RowLayout::new(alloc, HeldSchema::Shared(shared), plan);
    let Ok(layout) = Arc::new(alloc, layout) else {
        return Err(Fault::Memory);
    };
    match Arc::try_clone(schema) {
        Ok(schema) => Ok(Handle::Type(TypeHandle { schema, id, layout })),
        Err(_) => Err(Fault::Memory),
    }
}

/// The entity type of that name in a schema.
fn type_in(alloc: Global, held: &SchemaHandle, name: &str) -> Result<Handle, Fault>
    ensures { MatchResult result (IsTypeOf (Handle.Schema held.now) name.now)
        (IsNoType (Handle.Schema held.now) name.now) }
{
    let Some(id) = held.schema.type_named(name) else {
        return Err(Fault::UnknownType);
    };
    if !held.schema.is_entity(id) {
        return Err(Fault::UnknownType);
    }
    type_handle(alloc, &held.schema, id)
}

/// The entity type whose name the bytes spell.
pub(crate) fn type_of(alloc: Global, handle: &Handle, name: &[u8]) -> Result<Handle, Fault>
    ensures { MatchResult result (IsTypeOf handle.now name.now) (IsNoType handle.now name.now) }
{
    match handle {
        Handle::Schema(held) => match str::from_utf8(name) {
            Ok(name) => type_in(alloc, held, name),
            Err(_) => Err(Fault::NotUtf8),
        },
        _ => Err(Fault::OtherKind),
    }
}

/// The first of the names that a schema's fault carries, or no text.
fn first_name(fault: &SchemaFault) -> &str
    ensures { result.now ≡ first_name fault.now }
{
    match fault {
        SchemaFault::BadType { name } => name.as_str(),
        SchemaFault::BadProperty { owner, .. } => owner.as_str(),
        SchemaFault::UnknownBase { owner } => owner.as_str(),
        SchemaFault::BaseCycle { owner } => owner.as_str(),
        SchemaFault::PropertyTwice { owner, .. } => owner.as_str(),
        SchemaFault::BadEnumMember { owner, .. } => owner.as_str(),
        _ => "",
    }
}

/// The second, or no text.
fn second_name(fault: &SchemaFault) -> &str
    ensures { result.now ≡ second_name fault.now }
{
    match fault {
        SchemaFault::BadProperty { name, .. } => name.as_str(),
        SchemaFault::PropertyTwice { name, .. } => name.as_str(),
        SchemaFault::BadEnumMember { name, .. } => name.as_str(),
        _ => "",
    }
}

/// Reports a schema's fault, and its names if the buffer takes both.
pub(crate) fn report_names(fault: &SchemaFault, buffer: &mut [u8], answer: &mut Answer)
    ensures { ReportsNames fault.now buffer.old buffer.new answer.new }
{
    let first = first_name(fault).as_bytes();
    let second = second_name(fault).as_bytes();
    *answer = Answer::empty();
    answer.fault = u32::from(fault.number());
    answer.first = first.len();
    answer.length = first.len() + second.len();
    write_both(buffer, first, second);
}
