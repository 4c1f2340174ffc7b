//! The filter that a plan asks for.
use command_plan::command_line::Plan;
use csdl_schema::{Schema, SchemaFault};
use odata_queries::{QueryFault, filter_of_query};
use odata_typing::{Checked, Refusal, check};
use std::alloc::{AllocError, Global};

/// The schema of a document, if it is one.
pub fn read_schema(alloc: Global, document: &[u8]) -> Result<Option<Schema>, AllocError> {
    match Schema::read(alloc, document) {
        Ok(schema) => Ok(Some(schema)),
        Err(SchemaFault::Memory) => Err(AllocError),
        Err(_) => Ok(None),
    }
}

/// The filter of a text, if it is accepted.
fn of_text<'s>(
    alloc: Global,
    schema: &'s Schema,
    plan: &Plan<'_>,
    text: &str,
) -> Result<Option<Checked<'s>>, AllocError> {
    let Some(id) = schema.type_named(plan.named) else {
        return Ok(None);
    };
    if !schema.holds(id) {
        return Ok(None);
    }
    match check(alloc, schema, id, text) {
        Ok(filter) => Ok(Some(filter)),
        Err(Refusal::Memory) => Err(AllocError),
        Err(_) => Ok(None),
    }
}

/// The plan's filter, if it is accepted.
pub fn plan_filter<'s>(
    alloc: Global,
    schema: &'s Schema,
    plan: &Plan<'_>,
) -> Result<Option<Checked<'s>>, AllocError> {
    match (plan.filter, plan.query) {
        (Some(text), None) => of_text(alloc, schema, plan, text),
        (None, Some(query)) => match filter_of_query(alloc, query.as_bytes()) {
            Ok(Some(text)) => of_text(alloc, schema, plan, text.as_str()),
            Err(QueryFault::Memory) => Err(AllocError),
            _ => Ok(None),
        },
        _ => Ok(None),
    }
}
