//! Conditions as a JSON text, for callers of other languages.
ghost use Rattle.std.specs.Prelude.{◌≡◌, IfOk, codes, string_bytes};
ghost use Rattle.serde_json.specs.Data.{array, member, no_members, object, string};
ghost use Rattle.serde_json.specs.View.{items_view, view};
ghost use Rattle.odata_sql.specs.JsonText.{IsParameter, IsTextOf};
ghost use Rattle.odata_sql.specs.private.StatementData.{IsStatementData};

use super::translation::{Conditions, Statement};
use serde_json::{Value, json};
use sql_tree::{Dialect, Parameter};
use std::alloc::{AllocError, Global};

/// The conditions as a JSON object with the members `outcome`, `keep` and, if there is one, `fault`.
/// Each is an object of its `text` and of its `parameters` in order. A parameter that is a whole number is a number
/// there, any other one a text.
pub fn conditions_json(
    alloc: Global,
    found: &Conditions,
    dialect: Dialect,
) -> Result<String, AllocError>
    ensures { IfOk result (λ text. IsTextOf dialect found.now (string_bytes text)) }
{
    let outcome = statement_value(alloc, &found.outcome, dialect)?;
    let keep = statement_value(alloc, &found.keep, dialect)?;
    match &found.fault {
        Some(fault) => {
            let fault = statement_value(alloc, fault, dialect)?;
            object_with_fault(alloc, outcome, keep, fault)?.to_string(alloc)
        }
        None => object_without_fault(alloc, outcome, keep)?.to_string(alloc),
    }
}

/// An object of three statements.
fn object_with_fault(
    alloc: Global,
    outcome: Value,
    keep: Value,
    fault: Value,
) -> Result<Value, AllocError>
    ensures { IfOk result (λ value. view value ≡ object (member (codes "fault") (view fault)
        (member (codes "keep") (view keep) (member (codes "outcome") (view outcome) no_members)))) }
{
    json!(in alloc; {"outcome": outcome, "keep": keep, "fault": fault})
}

/// An object of two, where no row can have a fault.
fn object_without_fault(alloc: Global, outcome: Value, keep: Value) -> Result<Value, AllocError>
    ensures { IfOk result (λ value. view value ≡ object (member (codes "keep") (view keep)
        (member (codes "outcome") (view outcome) no_members))) }
{
    json!(in alloc; {"outcome": outcome, "keep": keep})
}

/// A statement as an object.
fn statement_value(
    alloc: Global,
    statement: &Statement,
    dialect: Dialect,
) -> Result<Value, AllocError>
    ensures { IfOk result (λ value. IsStatementData dialect statement.now (view value)) }
{
    let mut parameters = Vec::new(alloc);
    for parameter in statement.parameters.as_slice().iter() {
        parameters.push(parameter_value(alloc, parameter, dialect)?)?;
    }
    statement_object(alloc, statement.text.as_str(), parameters)
}

/// An object of a text and its parameters.
fn statement_object(alloc: Global, text: &str, parameters: Vec<Value>) -> Result<Value, AllocError>
    ensures { IfOk result (λ value. view value ≡ object (member (codes "parameters")
        (array (items_view parameters.items)) (member (codes "text") (string text.now) no_members))) }
{
    json!(in alloc; {"text": text, "parameters": Value::Array(parameters)})
}

/// A parameter as a number or a text.
fn parameter_value(
    alloc: Global,
    parameter: &Parameter,
    dialect: Dialect,
) -> Result<Value, AllocError>
    ensures { IfOk result (λ value. IsParameter dialect parameter.now (view value)) }
{
    match parameter {
        Parameter::Whole(number) => Ok(Value::from(*number)),
        Parameter::Text(text) => Ok(Value::String(text.clone()?)),
        Parameter::Instant(_) => Ok(Value::String(parameter.to_text(alloc, dialect)?)),
    }
}
