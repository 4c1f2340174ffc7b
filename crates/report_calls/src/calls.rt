//! The calls, over what is borrowed: each returns its status, and reports the rest in its answer.
ghost use Rattle.report_calls.specs.Reports.{ReportsFault, ReportsSql, ReportsStatus, ReportsTypes, ReportsVersion};
ghost use Rattle.report_calls.specs.Sentences.{ReportsSentence, ReportsSentenceFor};
ghost use Rattle.report_calls.specs.SqlHandles.{MakesSql, ReportsStatement, ReportsValue};

use crate::json_calls::{json_for, json_of};
use crate::name_calls::{VERSION, name_of_fault, name_of_status};
use crate::sentence_calls::{sentence_for, sentence_of};
use crate::sql_calls::sql_of;
use crate::sql_handles::sql_handle;
use crate::statement_calls::{report_shown, report_statement, statement_of, value_of};
use crate::type_lines::types_of;
use call_handles::{Answer, Handle, Owned, give, report_bytes, report_fault};
use std::alloc::Global;

/// Writes a sentence about a fault of a filter, query or row of a type.
pub fn fault_text<'a>(
    alloc: Global,
    given: &'a Handle,
    status: u32,
    text: &'a [u8],
    sentence: &'a mut [u8],
    fault: &'a Answer,
    answer: &'a mut Answer,
) -> u32
    ensures { ReportsSentenceFor given.now status text.now sentence.old sentence.new fault.now answer.new result }
{
    match sentence_for(alloc, given, status, fault, text) {
        Ok(words) => report_bytes(words.as_bytes(), sentence, answer),
        Err(fault) => report_fault(&fault, answer),
    }
}

/// Writes a sentence about a fault, without a type.
pub fn fault_text_alone<'a>(
    alloc: Global,
    status: u32,
    text: &'a [u8],
    sentence: &'a mut [u8],
    fault: &'a Answer,
    answer: &'a mut Answer,
) -> u32
    ensures { ReportsSentence status text.now sentence.old sentence.new fault.now answer.new result }
{
    match sentence_of(alloc, None, status, fault, text) {
        Ok(words) => report_bytes(words.as_bytes(), sentence, answer),
        Err(fault) => report_fault(&fault, answer),
    }
}

/// Writes a fault of a filter, query or row of a type whole, as a JSON object.
pub fn fault_json<'a>(
    alloc: Global,
    given: &'a Handle,
    status: u32,
    text: &'a [u8],
    object: &'a mut [u8],
    fault: &'a Answer,
    answer: &'a mut Answer,
) -> u32
    ensures { ReportsSentenceFor given.now status text.now object.old object.new fault.now answer.new result }
{
    match json_for(alloc, given, status, fault, text) {
        Ok(json) => report_bytes(json.as_bytes(), object, answer),
        Err(fault) => report_fault(&fault, answer),
    }
}

/// Writes a fault whole, as a JSON object, without a type.
pub fn fault_json_alone<'a>(
    alloc: Global,
    status: u32,
    text: &'a [u8],
    object: &'a mut [u8],
    fault: &'a Answer,
    answer: &'a mut Answer,
) -> u32
    ensures { ReportsSentence status text.now object.old object.new fault.now answer.new result }
{
    match json_of(alloc, None, status, fault, text) {
        Ok(json) => report_bytes(json.as_bytes(), object, answer),
        Err(fault) => report_fault(&fault, answer),
    }
}

/// Writes the conditions of a filter in SQL, as JSON.
pub fn sql<'a>(
    alloc: Global,
    filter: &'a Handle,
    form: u32,
    how: &'a [u8],
    text: &'a mut [u8],
    answer: &'a mut Answer,
) -> u32
    ensures { ReportsSql filter.now form how.now text.old text.new answer.new result }
{
    match sql_of(alloc, filter, form, how) {
        Ok(conditions) => report_bytes(conditions.as_bytes(), text, answer),
        Err(fault) => report_fault(&fault, answer),
    }
}

/// Makes conditions of a filter in SQL.
pub fn new_sql<'a>(
    alloc: Global,
    filter: &'a Handle,
    form: u32,
    how: &'a [u8],
    made: &'a mut Owned,
    answer: &'a mut Answer,
) -> u32
    ensures { MakesSql filter.now form how.now made.new answer.new result }
{
    give(alloc, sql_handle(alloc, filter, form, how), made, answer)
}

/// Writes the text of a statement of conditions.
pub fn sql_text<'a>(
    conditions: &'a Handle,
    which: u32,
    text: &'a mut [u8],
    answer: &'a mut Answer,
) -> u32
    ensures { ReportsStatement conditions.now which text.old text.new answer.new result }
{
    match statement_of(conditions, which) {
        Ok(found) => report_statement(found, text, answer),
        Err(fault) => report_fault(&fault, answer),
    }
}

/// Reports the value of a parameter of a statement.
pub fn sql_value<'a>(
    alloc: Global,
    conditions: &'a Handle,
    which: u32,
    index: u32,
    text: &'a mut [u8],
    answer: &'a mut Answer,
) -> u32
    ensures { ReportsValue conditions.now which index text.old text.new answer.new result }
{
    match value_of(alloc, conditions, which, index) {
        Ok(value) => report_shown(
            value.kind,
            value.number,
            value.text.as_bytes(),
            text,
            answer,
        ),
        Err(fault) => report_fault(&fault, answer),
    }
}

/// Writes the entity and complex types of a schema, or one type, in lines.
pub fn types<'a>(
    alloc: Global,
    given: &'a Handle,
    text: &'a mut [u8],
    answer: &'a mut Answer,
) -> u32
    ensures { ReportsTypes given.now text.old text.new answer.new result }
{
    match types_of(alloc, given) {
        Ok(lines) => report_bytes(lines.as_bytes(), text, answer),
        Err(fault) => report_fault(&fault, answer),
    }
}

/// Writes the version.
pub fn version<'a>(text: &'a mut [u8], answer: &'a mut Answer) -> u32
    ensures { ReportsVersion text.old text.new answer.new result }
{
    report_bytes(VERSION.as_bytes(), text, answer)
}

/// Writes the name of a status.
pub fn status_name<'a>(status: u32, text: &'a mut [u8], answer: &'a mut Answer) -> u32
    ensures { ReportsStatus status text.old text.new answer.new result }
{
    match name_of_status(status) {
        Ok(name) => report_bytes(name.as_bytes(), text, answer),
        Err(fault) => report_fault(&fault, answer),
    }
}

/// Writes the name of a fault.
pub fn fault_name<'a>(status: u32, fault: u32, text: &'a mut [u8], answer: &'a mut Answer) -> u32
    ensures { ReportsFault status fault text.old text.new answer.new result }
{
    match name_of_fault(status, fault) {
        Ok(name) => report_bytes(name.as_bytes(), text, answer),
        Err(fault) => report_fault(&fault, answer),
    }
}
