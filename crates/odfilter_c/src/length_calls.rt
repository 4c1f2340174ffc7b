//! The calls where the buffer stands at a null address: with the length 0 they report how long the text is, with
//! another length the status is that of a null address, and nothing is written.
ghost use Rattle.std.specs.Prelude.{◌≡◌, ℕ, List, []};
ghost use Rattle.odfilter_c.specs.Loans.{UnlessLong};
ghost use Rattle.handle_calls.specs.Reports.{ReportsCanonical, ReportsNodes};
ghost use Rattle.handle_calls.specs.Costs.{ReportsPaths};
ghost use Rattle.handle_calls.specs.RowReports.{ReportsPath};
ghost use Rattle.report_calls.specs.Reports.{ReportsFault, ReportsSql, ReportsStatus, ReportsTypes, ReportsVersion};
ghost use Rattle.report_calls.specs.Sentences.{ReportsSentence, ReportsSentenceFor};
ghost use Rattle.report_calls.specs.SqlHandles.{ReportsStatement, ReportsValue};

use crate::null_calls;
use call_handles::{Answer, Handle};
use handle_calls::calls;
use report_calls::calls as reports;
use std::alloc::Global;

pub(crate) fn canonical_to_null<'a>(
    alloc: Global,
    filter: &'a Handle,
    length: usize,
    answer: &'a mut Answer,
) -> u32
    ensures { UnlessLong length ((answer.new ≡ answer.old) × (result ≡ 1))
        ((last : List ℕ) × ReportsCanonical filter.now [] last answer.new result) }
{
    if length > 0 {
        return 1;
    }
    let mut none = [0; 0];
    calls::canonical(alloc, filter, none.as_mut_slice(), answer)
}

pub(crate) fn explain_to_null<'a>(
    alloc: Global,
    filter: &'a Handle,
    length: usize,
    answer: &'a mut Answer,
) -> u32
    ensures { UnlessLong length ((answer.new ≡ answer.old) × (result ≡ 1))
        ((last : List ℕ) × ReportsNodes filter.now [] last answer.new result) }
{
    if length > 0 {
        return 1;
    }
    let mut none = [0; 0];
    calls::explain(alloc, filter, none.as_mut_slice(), answer)
}

pub(crate) fn property_paths_to_null<'a>(
    alloc: Global,
    filter: &'a Handle,
    length: usize,
    answer: &'a mut Answer,
) -> u32
    ensures { UnlessLong length ((answer.new ≡ answer.old) × (result ≡ 1))
        ((last : List ℕ) × ReportsPaths filter.now [] last answer.new result) }
{
    if length > 0 {
        return 1;
    }
    let mut none = [0; 0];
    calls::property_paths(alloc, filter, none.as_mut_slice(), answer)
}

pub(crate) fn path_to_null<'a>(judge: &'a Handle, length: usize, answer: &'a mut Answer) -> u32
    ensures { UnlessLong length ((answer.new ≡ answer.old) × (result ≡ 1))
        ((last : List ℕ) × ReportsPath judge.now [] last answer.new result) }
{
    if length > 0 {
        return 1;
    }
    let mut none = [0; 0];
    calls::path(judge, none.as_mut_slice(), answer)
}

pub(crate) fn types_to_null<'a>(
    alloc: Global,
    given: &'a Handle,
    length: usize,
    answer: &'a mut Answer,
) -> u32
    ensures { UnlessLong length ((answer.new ≡ answer.old) × (result ≡ 1))
        ((last : List ℕ) × ReportsTypes given.now [] last answer.new result) }
{
    if length > 0 {
        return 1;
    }
    let mut none = [0; 0];
    reports::types(alloc, given, none.as_mut_slice(), answer)
}

pub(crate) fn version_to_null<'a>(length: usize, answer: &'a mut Answer) -> u32
    ensures { UnlessLong length ((answer.new ≡ answer.old) × (result ≡ 1))
        ((last : List ℕ) × ReportsVersion [] last answer.new result) }
{
    if length > 0 {
        return 1;
    }
    let mut none = [0; 0];
    reports::version(none.as_mut_slice(), answer)
}

pub(crate) fn status_name_to_null<'a>(status: u32, length: usize, answer: &'a mut Answer) -> u32
    ensures { UnlessLong length ((answer.new ≡ answer.old) × (result ≡ 1))
        ((last : List ℕ) × ReportsStatus status [] last answer.new result) }
{
    if length > 0 {
        return 1;
    }
    let mut none = [0; 0];
    reports::status_name(status, none.as_mut_slice(), answer)
}

pub(crate) fn fault_name_to_null<'a>(
    status: u32,
    fault: u32,
    length: usize,
    answer: &'a mut Answer,
) -> u32
    ensures { UnlessLong length ((answer.new ≡ answer.old) × (result ≡ 1))
        ((last : List ℕ) × ReportsFault status fault [] last answer.new result) }
{
    if length > 0 {
        return 1;
    }
    let mut none = [0; 0];
    reports::fault_name(status, fault, none.as_mut_slice(), answer)
}

pub(crate) fn sql_to_null<'a>(
    alloc: Global,
    filter: &'a Handle,
    form: u32,
    how: &'a [u8],
    length: usize,
    answer: &'a mut Answer,
) -> u32
    ensures { UnlessLong length ((answer.new ≡ answer.old) × (result ≡ 1))
        ((last : List ℕ) × ReportsSql filter.now form how.now [] last answer.new result) }
{
    if length > 0 {
        return 1;
    }
    let mut none = [0; 0];
    reports::sql(alloc, filter, form, how, none.as_mut_slice(), answer)
}

pub(crate) fn sql_to_null_at_null<'a>(
    alloc: Global,
    filter: &'a Handle,
    form: u32,
    how_length: usize,
    length: usize,
    answer: &'a mut Answer,
) -> u32
    ensures { UnlessLong length ((answer.new ≡ answer.old) × (result ≡ 1))
        ((last : List ℕ) × UnlessLong how_length ((last ≡ []) × ((answer.new ≡ answer.old) × (result ≡ 1)))
        (ReportsSql filter.now form [] [] last answer.new result)) }
{
    if length > 0 {
        return 1;
    }
    let mut none = [0; 0];
    null_calls::sql_at_null(alloc, filter, form, how_length, none.as_mut_slice(), answer)
}

pub(crate) fn sql_text_to_null<'a>(
    conditions: &'a Handle,
    which: u32,
    length: usize,
    answer: &'a mut Answer,
) -> u32
    ensures { UnlessLong length ((answer.new ≡ answer.old) × (result ≡ 1))
        ((last : List ℕ) × ReportsStatement conditions.now which [] last answer.new result) }
{
    if length > 0 {
        return 1;
    }
    let mut none = [0; 0];
    reports::sql_text(conditions, which, none.as_mut_slice(), answer)
}

pub(crate) fn sql_value_to_null<'a>(
    alloc: Global,
    conditions: &'a Handle,
    which: u32,
    index: u32,
    length: usize,
    answer: &'a mut Answer,
) -> u32
    ensures { UnlessLong length ((answer.new ≡ answer.old) × (result ≡ 1))
        ((last : List ℕ) × ReportsValue conditions.now which index [] last answer.new result) }
{
    if length > 0 {
        return 1;
    }
    let mut none = [0; 0];
    reports::sql_value(alloc, conditions, which, index, none.as_mut_slice(), answer)
}

pub(crate) fn fault_text_to_null<'a>(
    alloc: Global,
    given: &'a Handle,
    status: u32,
    text: &'a [u8],
    length: usize,
    fault: &'a Answer,
    answer: &'a mut Answer,
) -> u32
    ensures { UnlessLong length ((answer.new ≡ answer.old) × (result ≡ 1))
        ((last : List ℕ) × ReportsSentenceFor given.now status text.now [] last fault.now answer.new result) }
{
    if length > 0 {
        return 1;
    }
    let mut none = [0; 0];
    reports::fault_text(
        alloc,
        given,
        status,
        text,
        none.as_mut_slice(),
        fault,
        answer,
    )
}

pub(crate) fn fault_text_to_null_at_null<'a>(
    alloc: Global,
    given: &'a Handle,
    status: u32,
    text_length: usize,
    length: usize,
    fault: &'a Answer,
    answer: &'a mut Answer,
) -> u32
    ensures { UnlessLong length ((answer.new ≡ answer.old) × (result ≡ 1))
        ((last : List ℕ) × UnlessLong text_length ((last ≡ []) × ((answer.new ≡ answer.old) × (result ≡ 1)))
        (ReportsSentenceFor given.now status [] [] last fault.now answer.new result)) }
{
    if length > 0 {
        return 1;
    }
    let mut none = [0; 0];
    null_calls::fault_text_at_null(
        alloc,
        given,
        status,
        text_length,
        none.as_mut_slice(),
        fault,
        answer,
    )
}

pub(crate) fn fault_text_alone_to_null<'a>(
    alloc: Global,
    status: u32,
    text: &'a [u8],
    length: usize,
    fault: &'a Answer,
    answer: &'a mut Answer,
) -> u32
    ensures { UnlessLong length ((answer.new ≡ answer.old) × (result ≡ 1))
        ((last : List ℕ) × ReportsSentence status text.now [] last fault.now answer.new result) }
{
    if length > 0 {
        return 1;
    }
    let mut none = [0; 0];
    reports::fault_text_alone(alloc, status, text, none.as_mut_slice(), fault, answer)
}

pub(crate) fn fault_text_alone_to_null_at_null<'a>(
    alloc: Global,
    status: u32,
    text_length: usize,
    length: usize,
    fault: &'a Answer,
    answer: &'a mut Answer,
) -> u32
    ensures { UnlessLong length ((answer.new ≡ answer.old) × (result ≡ 1))
        ((last : List ℕ) × UnlessLong text_length ((last ≡ []) × ((answer.new ≡ answer.old) × (result ≡ 1)))
        (ReportsSentence status [] [] last fault.now answer.new result)) }
{
    if length > 0 {
        return 1;
    }
    let mut none = [0; 0];
    null_calls::fault_text_alone_at_null(
        alloc,
        status,
        text_length,
        none.as_mut_slice(),
        fault,
        answer,
    )
}

pub(crate) fn fault_json_to_null<'a>(
    alloc: Global,
    given: &'a Handle,
    status: u32,
    text: &'a [u8],
    length: usize,
    fault: &'a Answer,
    answer: &'a mut Answer,
) -> u32
    ensures { UnlessLong length ((answer.new ≡ answer.old) × (result ≡ 1))
        ((last : List ℕ) × ReportsSentenceFor given.now status text.now [] last fault.now answer.new result) }
{
    if length > 0 {
        return 1;
    }
    let mut none = [0; 0];
    reports::fault_json(
        alloc,
        given,
        status,
        text,
        none.as_mut_slice(),
        fault,
        answer,
    )
}

pub(crate) fn fault_json_to_null_at_null<'a>(
    alloc: Global,
    given: &'a Handle,
    status: u32,
    text_length: usize,
    length: usize,
    fault: &'a Answer,
    answer: &'a mut Answer,
) -> u32
    ensures { UnlessLong length ((answer.new ≡ answer.old) × (result ≡ 1))
        ((last : List ℕ) × UnlessLong text_length ((last ≡ []) × ((answer.new ≡ answer.old) × (result ≡ 1)))
        (ReportsSentenceFor given.now status [] [] last fault.now answer.new result)) }
{
    if length > 0 {
        return 1;
    }
    let mut none = [0; 0];
    null_calls::fault_json_at_null(
        alloc,
        given,
        status,
        text_length,
        none.as_mut_slice(),
        fault,
        answer,
    )
}

pub(crate) fn fault_json_alone_to_null<'a>(
    alloc: Global,
    status: u32,
    text: &'a [u8],
    length: usize,
    fault: &'a Answer,
    answer: &'a mut Answer,
) -> u32
    ensures { UnlessLong length ((answer.new ≡ answer.old) × (result ≡ 1))
        ((last : List ℕ) × ReportsSentence status text.now [] last fault.now answer.new result) }
{
    if length > 0 {
        return 1;
    }
    let mut none = [0; 0];
    reports::fault_json_alone(alloc, status, text, none.as_mut_slice(), fault, answer)
}

pub(crate) fn fault_json_alone_to_null_at_null<'a>(
    alloc: Global,
    status: u32,
    text_length: usize,
    length: usize,
    fault: &'a Answer,
    answer: &'a mut Answer,
) -> u32
    ensures { UnlessLong length ((answer.new ≡ answer.old) × (result ≡ 1))
        ((last : List ℕ) × UnlessLong text_length ((last ≡ []) × ((answer.new ≡ answer.old) × (result ≡ 1)))
        (ReportsSentence status [] [] last fault.now answer.new result)) }
{
    if length > 0 {
        return 1;
    }
    let mut none = [0; 0];
    null_calls::fault_json_alone_at_null(
        alloc,
        status,
        text_length,
        none.as_mut_slice(),
        fault,
        answer,
    )
}
