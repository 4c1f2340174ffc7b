//! The lines of an explanation, each with what is reported of its node.
ghost use Rattle.std.specs.Prelude.{◌<◌, length};
ghost use Rattle.odata_eval.specs.NodeOutcome.{IsEvaluation};

use crate::evaluation_stop::stop_index;
use crate::node_report::{NodeReport, report_of};
use crate::value_text::{push_on_line, push_value};
use edm_entities::{Entity, TextFault};
use edm_values::{Datum, Moment, Value};
use odata_eval::Evaluation;
use odata_typing::{Checked, NodeKind};
use std::alloc::{AllocError, Global};

/// Why a row has no explanation.
#[derive(Drop)]
pub enum RowFault {
    /// It is no entity of the filter's type.
    NoEntity(TextFault),
    /// An allocation failed.
    Memory,
}

/// Appends the value of the node at an index: of a literal its text in the filter.
fn push_node_value(
    out: &mut String,
    filter: &Checked<'_>,
    index: usize,
    value: &Datum<'_>,
) -> Result<(), AllocError>
    requires { index < length filter.now.list.nodes }
{
    let node = filter.nodes()[index];
    if let NodeKind::Literal { .. } = node.kind {
        return push_on_line(out, filter.text(index));
    }
    let mut spelled = String::new(*out.allocator());
    push_value(&mut spelled, filter.schema(), &node.edm_type, value)?;
    push_on_line(out, spelled.as_str())
}

/// Appends what is reported of the node at an index, after its line.
fn push_report(
    out: &mut String,
    filter: &Checked<'_>,
    index: usize,
    report: &NodeReport<'_>,
) -> Result<(), AllocError>
    requires { index < length filter.now.list.nodes }
{
    match report {
        NodeReport::Value(value) => {
            out.push_str(" = ")?;
            push_node_value(out, filter, index, value)
        }
        NodeReport::Fault(fault) => write!(out, " = {fault}"),
        NodeReport::InBody => Ok(()),
        NodeReport::LeftOut => out.push_str(" left out"),
    }
}

/// Appends the line of the node at an index.
fn push_line(
    out: &mut String,
    evaluation: &Evaluation<'_, '_, '_>,
    stopped: Option<usize>,
    index: usize,
    line: &str,
) -> Result<(), AllocError>
    requires is { IsEvaluation evaluation.now.filter.now evaluation.now.entity.now evaluation.now.moment.now
        evaluation.now.moment_value.now }
{
    out.push_str(line)?;
    if index < evaluation.filter.nodes().len() {
        let report = report_of(*out.allocator(), evaluation, stopped, index)?;
        push_report(out, evaluation.filter, index, &report)?;
    }
    if stopped == Some(index) {
        out.push_str(", where evaluation stops")?;
    }
    out.push('\n')
}

/// The explanation of the filter on an entity of its type.
fn lines_of(alloc: Global, evaluation: &Evaluation<'_, '_, '_>) -> Result<String, AllocError>
    requires is { IsEvaluation evaluation.now.filter.now evaluation.now.entity.now evaluation.now.moment.now
        evaluation.now.moment_value.now }
{
    let explained = evaluation.filter.explain(alloc)?;
    let stopped = stop_index(alloc, evaluation)?;
    let mut text = String::new(alloc);
    for (index, line) in explained.as_str().lines().enumerate() {
        push_line(&mut text, evaluation, stopped, index, line)?;
    }
    Ok(text)
}

/// Explains the filter's outcome on the row, one JSON object.
///
/// The lines are those of `Checked::explain`. After each stands ` = ` and the value of its node, or its fault; after
/// the node where evaluation stops also `, where evaluation stops`; and ` left out` after a node that is not evaluated,
/// as [`report_of`] reports it. Control characters stand by their numbers, as `\u000a`. Nodes in the body of a lambda
/// operator have no value of their own. It has no clause: [`stop_index`] and [`report_of`] promise what is reported of
/// each node.
pub fn explain_row(
    alloc: Global,
    filter: &Checked<'_>,
    now: &Moment,
    row: &[u8],
) -> Result<String, RowFault> {
    let (schema, type_id) = (filter.schema(), filter.filtered_type());
    let moment_value = Value::Moment(*now);
    match Entity::expanded_from_text(alloc, schema, type_id, filter.expansion(), row) {
        Ok(entity) => {
            let evaluation = Evaluation {
                filter,
                entity: &entity,
                moment: now,
                moment_value: &moment_value,
            };
            match lines_of(alloc, &evaluation) {
                Ok(text) => Ok(text),
                Err(AllocError) => Err(RowFault::Memory),
            }
        }
        Err(fault) => Err(RowFault::NoEntity(fault)),
    }
}
