//! What is asked of a document, of its schema, of a type of that, and of a filter of the type.
ghost use Rattle.csdl_schema.specs.SchemaModel.{HoldsType};

use crate::costs::push_cost;
use crate::moments::moment_of;
use crate::nodes::push_nodes;
use crate::outcomes::{OnRow, push_expanded, push_outcome};
use crate::question::{Held, Question, number_of};
use crate::rows::push_row;
use crate::runs::push_run_of;
use crate::schemas::{push_named, push_number, push_piece, push_slot_of, push_slots};
use csdl_schema::{Schema, TypeId};
use odata_typing::{Checked, check_to_store};
use std::alloc::{AllocError, Global};

/// Appends the answer of a filter on a row.
fn push_on_row(
    out: &mut String,
    alloc: Global,
    checked: &Checked<'_>,
    question: &Question<'_>,
) -> Result<(), AllocError> {
    let Some(now) = moment_of(question.second) else {
        return out.push_str("no moment");
    };
    let times = if checked.takes_memory() {
        1
    } else {
        number_of(question.third)
    };
    let on = OnRow {
        line: question.bytes,
        now: &now,
        times,
    };
    match question.word {
        "outcome" => push_outcome(out, alloc, checked, on),
        "expanded" => push_expanded(out, alloc, checked, question.third, on),
        _ => push_cost(out, alloc, checked, on),
    }
}

/// Appends the answer of a filter that is accepted.
fn push_of_filter(
    out: &mut String,
    alloc: Global,
    checked: &Checked<'_>,
    question: &Question<'_>,
) -> Result<(), AllocError> {
    match question.word {
        "filter" => out.push_str("accepted"),
        "canonical" => out.push_str(checked.canonical(alloc)?.as_str()),
        "explanation" => out.push_str(checked.explain(alloc)?.as_str()),
        "nodes" => push_nodes(out, checked),
        "depth" => write!(out, "{}", checked.lambda_depth()),
        "outcome" | "expanded" | "cost" => push_on_row(out, alloc, checked, question),
        "lines" | "collection" | "devices" | "logged" | "unfailing" => push_run_of(
            out, alloc, checked, question,
        ),
        _ => out.push_str("no such question"),
    }
}

/// Appends the answer of a type of the schema, or of the filter of it that is held.
fn push_of_type(
    out: &mut String,
    schema: &Schema,
    id: TypeId,
    filter: &str,
    question: &Question<'_>,
) -> Result<(), AllocError>
    requires { HoldsType schema.now id }
{
    let alloc = *out.allocator();
    match question.word {
        "type" => return out.push_str("found"),
        "slots" => return push_slots(out, schema, id),
        "slot" => return push_slot_of(out, schema, id, question.text),
        "piece" => return push_piece(out, schema, id, question.text),
        "row" => return push_row(out, alloc, schema, id, question.bytes),
        _ => {}
    }
    match &check_to_store(alloc, schema, id, filter) {
        Ok(stored) => push_of_filter(out, alloc, &stored.with_schema(schema), question),
        Err(refusal) => write!(out, "refused {refusal}"),
    }
}

/// Appends the answer of a schema, or of the type of it that is held.
fn push_of_schema(
    out: &mut String,
    schema: &Schema,
    held: &Held<'_>,
    question: &Question<'_>,
) -> Result<(), AllocError> {
    match question.word {
        "schema" => return out.push_str("accepted"),
        "named" => return push_named(out, schema, question.text),
        "number" => return push_number(out, schema, question),
        _ => {}
    }
    match schema.type_named(held.named) {
        Some(id) if schema.holds(id) => push_of_type(out, schema, id, held.filter, question),
        _ => out.push_str("no such type"),
    }
}

/// Appends the answer of the schema of the document that is held, or the document's fault.
pub(crate) fn push_of_document(
    out: &mut String,
    alloc: Global,
    held: &Held<'_>,
    question: &Question<'_>,
) -> Result<(), AllocError> {
    match &Schema::read(alloc, held.document) {
        Ok(schema) => push_of_schema(out, schema, held, question),
        Err(fault) => write!(out, "{fault}"),
    }
}
