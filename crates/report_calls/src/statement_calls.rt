//! The statements of conditions of SQL, and the values of their parameters.
ghost use Rattle.std.specs.Prelude.{◌≡◌, Ok, Err, IfOk, MatchResult, option_copied, slice_get, string_bytes};
ghost use Rattle.report_calls.specs.SqlHandles.{IsNoValue, IsValueIn, WritesShown, kind_number, parameter_at};
ghost use Rattle.report_calls.specs.SqlHandles.{statement_in, statement_numbered, statement_shown, value_shown};
ghost use Rattle.report_calls.specs.SqlHandles.{whole_bits};

use call_handles::{Answer, ConditionsHandle, Fault, Handle, SqlStatement, report_bytes};
use sql_tree::{Dialect, Parameter};
use std::alloc::{AllocError, Global};

/// Writes a text, and reports a kind and a number with its length.
pub(crate) fn report_shown(
    kind: u32,
    number: u64,
    text: &[u8],
    buffer: &mut [u8],
    answer: &mut Answer,
) -> u32
    ensures { WritesShown (Ok (record { kind = kind; number = number; text = text.now })) buffer.old buffer.new
        answer.new result }
{
    let status = report_bytes(text, buffer, answer);
    if status != 0 {
        return status;
    }
    answer.verdict = kind;
    answer.number = number;
    0
}

/// The statement of a number: the outcome, what is kept, or the fault.
fn statement_numbered(held: &ConditionsHandle, number: u32) -> Option<&SqlStatement>
    ensures { option_copied result ≡ statement_numbered held.now number }
{
    match number {
        0 => Some(&held.outcome),
        1 => Some(&held.keep),
        2 => held.fault.as_ref(),
        _ => None,
    }
}

/// The statement of a number in the conditions that a handle is.
pub(crate) fn statement_of(conditions: &Handle, number: u32) -> Result<&SqlStatement, Fault>
    ensures { MatchResult result (λ found. statement_in conditions.now number ≡ Ok (statement_shown found.now))
        (λ fault. statement_in conditions.now number ≡ Err fault) }
{
    match conditions {
        Handle::Conditions(held) => match statement_numbered(held, number) {
            Some(found) => Ok(found),
            None => Err(Fault::UnknownNumber),
        },
        _ => Err(Fault::OtherKind),
    }
}

/// Writes the text of a statement, and reports how many parameters it has.
pub(crate) fn report_statement(
    statement: &SqlStatement,
    buffer: &mut [u8],
    answer: &mut Answer,
) -> u32
    ensures { WritesShown (Ok (statement_shown statement.now)) buffer.old buffer.new answer.new result }
{
    let count = statement.parameters.as_slice().len();
    report_shown(0, count as u64, statement.text.as_bytes(), buffer, answer)
}

/// The parameter at an index of a statement.
fn parameter_in(statement: &SqlStatement, index: u32) -> Option<&Parameter>
    ensures { option_copied result ≡ slice_get statement.now.parameters.items index }
{
    statement.parameters.as_slice().get(index as usize)
}

/// The parameter at an index of the statement of a number.
fn parameter_at(held: &ConditionsHandle, number: u32, index: u32) -> Option<&Parameter>
    ensures { option_copied result ≡ parameter_at held.now number index }
{
    match statement_numbered(held, number) {
        Some(found) => parameter_in(found, index),
        None => None,
    }
}

fn kind_number(parameter: &Parameter) -> u32
    ensures { result ≡ kind_number parameter.now }
{
    match parameter {
        Parameter::Whole(_) => 0,
        Parameter::Text(_) => 1,
        Parameter::Instant(_) => 2,
    }
}

fn whole_bits(parameter: &Parameter) -> u64
    ensures { result ≡ whole_bits parameter.now }
{
    match parameter {
        Parameter::Whole(number) => number.cast_unsigned(),
        Parameter::Text(_) => 0,
        Parameter::Instant(_) => 0,
    }
}

/// What is reported of a value.
#[derive(Drop)]
pub(crate) struct ShownValue {
    pub(crate) kind: u32,
    pub(crate) number: u64,
    pub(crate) text: String,
}

fn shown_value(
    alloc: Global,
    dialect: Dialect,
    parameter: &Parameter,
) -> Result<ShownValue, AllocError>
    ensures { IfOk result (λ value. value_shown dialect parameter.now
        ≡ record { kind = value.kind; number = value.number; text = string_bytes value.text }) }
{
    let text = parameter.to_text(alloc, dialect)?;
    Ok(ShownValue {
        kind: kind_number(parameter),
        number: whole_bits(parameter),
        text,
    })
}

/// The value at an index of a statement, in the conditions that a handle is.
pub(crate) fn value_of(
    alloc: Global,
    conditions: &Handle,
    number: u32,
    index: u32,
) -> Result<ShownValue, Fault>
    ensures { MatchResult result (λ value. IsValueIn conditions.now number index
        (record { kind = value.kind; number = value.number; text = string_bytes value.text }))
        (IsNoValue conditions.now number index) }
{
    match conditions {
        Handle::Conditions(held) => match parameter_at(held, number, index) {
            Some(parameter) => match shown_value(alloc, held.dialect, parameter) {
                Ok(value) => Ok(value),
                Err(_) => Err(Fault::Memory),
            },
            None => Err(Fault::UnknownNumber),
        },
        _ => Err(Fault::OtherKind),
    }
}
