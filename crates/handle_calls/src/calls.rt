//! The calls, over what is borrowed: each returns its status, and reports the rest in its answer.
ghost use Rattle.std.specs.Prelude.{Err};
ghost use Rattle.handle_calls.specs.Reports.{ChecksQuery, ChecksText, FindsType, Frees, GivesSchema, ReadsSchema};
ghost use Rattle.handle_calls.specs.Reports.{ReportsCanonical, ReportsNodes};
ghost use Rattle.handle_calls.specs.Shares.{Shares};
ghost use Rattle.handle_calls.specs.UrlCalls.{ChecksUrl};
ghost use Rattle.handle_calls.specs.Costs.{ReportsLambdaDepth, ReportsNodeCount, ReportsPaths};
ghost use Rattle.handle_calls.specs.RowReports.{FiltersLines, JudgesNext, JudgesOne, MakesJudge, MakesJudgeOf};
ghost use Rattle.handle_calls.specs.RowReports.{SetsBound, SetsMoment, ReportsNeed, ReportsPath};

use crate::cost_calls::{counted, path_lines, report_lines};
use crate::filter_calls::{canonical_of, explanation_of, filter_for, filter_in_query, filter_of};
use crate::judge_calls::{judge_of, judge_with, last_path, put_moment, report_next, report_row};
use crate::line_calls::report_rows;
use crate::schema_calls::{report_names, schema_of, type_of};
use crate::share_calls::share_of;
use crate::url_calls::{found_for, report_found};
use call_handles::{Answer, Fault, Handle, Owned, give, report_bytes, report_fault};
use std::alloc::Global;

/// What becomes of a document that is not a schema.
fn refuse_schema(fault: &Fault, names: &mut [u8], schema: &mut Owned, answer: &mut Answer) -> u32
    ensures { GivesSchema (Err fault.now) names.old names.new schema.new.value answer.new result }
{
    *schema = Owned::none();
    match fault {
        Fault::Schema(why) => {
            report_names(why, names, answer);
            fault.status()
        }
        _ => report_fault(fault, answer),
    }
}

/// Reads a schema.
pub fn read_schema<'a>(
    alloc: Global,
    document: &'a [u8],
    names: &'a mut [u8],
    schema: &'a mut Owned,
    answer: &'a mut Answer,
) -> u32
    ensures { ReadsSchema document.now names.old names.new schema.new answer.new result }
{
    match schema_of(alloc, document) {
        Ok(handle) => give(alloc, Ok(handle), schema, answer),
        Err(fault) => refuse_schema(&fault, names, schema, answer),
    }
}

/// Finds an entity type.
pub fn find_type<'a>(alloc: Global, schema: &'a Handle, name: &'a [u8], made: &'a mut Owned) -> u32
    ensures { FindsType schema.now name.now made.new result }
{
    let mut answer = Answer::empty();
    give(alloc, type_of(alloc, schema, name), made, &mut answer)
}

/// Checks a filter.
pub fn check<'a>(
    alloc: Global,
    given: &'a Handle,
    text: &'a [u8],
    made: &'a mut Owned,
    answer: &'a mut Answer,
) -> u32
    ensures { ChecksText given.now text.now made.new answer.new result }
{
    give(alloc, filter_of(alloc, given, text), made, answer)
}

/// Checks the filter of a query string.
pub fn check_query<'a>(
    alloc: Global,
    given: &'a Handle,
    query: &'a [u8],
    made: &'a mut Owned,
    answer: &'a mut Answer,
) -> u32
    ensures { ChecksQuery given.now query.now made.new answer.new result }
{
    give(alloc, filter_in_query(alloc, given, query), made, answer)
}

/// Checks the filter among any options of a query, and reports where it stands.
pub fn check_url<'a>(
    alloc: Global,
    given: &'a Handle,
    query: &'a [u8],
    text: &'a mut [u8],
    made: &'a mut Owned,
    answer: &'a mut Answer,
) -> u32
    ensures { ChecksUrl given.now query.now text.old text.new made.new answer.new result }
{
    match found_for(alloc, given, query) {
        Ok(found) => {
            let filter = filter_for(alloc, given, found.text.as_str());
            let status = give(alloc, filter, made, answer);
            report_found(&found, text, answer);
            status
        }
        Err(fault) => give(alloc, Err(fault), made, answer),
    }
}

/// Writes the canonical text of a filter.
pub fn canonical<'a>(
    alloc: Global,
    filter: &'a Handle,
    text: &'a mut [u8],
    answer: &'a mut Answer,
) -> u32
    ensures { ReportsCanonical filter.now text.old text.new answer.new result }
{
    match canonical_of(alloc, filter) {
        Ok(canonical) => report_bytes(canonical.as_bytes(), text, answer),
        Err(fault) => report_fault(&fault, answer),
    }
}

/// Writes what each node of a filter is.
pub fn explain<'a>(
    alloc: Global,
    filter: &'a Handle,
    text: &'a mut [u8],
    answer: &'a mut Answer,
) -> u32
    ensures { ReportsNodes filter.now text.old text.new answer.new result }
{
    match explanation_of(alloc, filter) {
        Ok(nodes) => report_bytes(nodes.as_bytes(), text, answer),
        Err(fault) => report_fault(&fault, answer),
    }
}

/// Reports whether a filter needs a moment.
pub fn needs_moment<'a>(filter: &'a Handle, answer: &'a mut Answer) -> u32
    ensures { ReportsNeed filter.now answer.new result }
{
    match filter {
        Handle::Filter(held) => {
            *answer = Answer::empty();
            if held.checked().uses_now() {
                answer.number = 1;
            }
            0
        }
        _ => report_fault(&Fault::OtherKind, answer),
    }
}

/// Reports how many nodes a filter has.
pub fn node_count<'a>(filter: &'a Handle, answer: &'a mut Answer) -> u32
    ensures { ReportsNodeCount filter.now answer.new result }
{
    match filter {
        Handle::Filter(held) => {
            *answer = counted(held.checked().node_count());
            0
        }
        _ => report_fault(&Fault::OtherKind, answer),
    }
}

/// Reports how many lambda operators of a filter stand in one another.
pub fn lambda_depth<'a>(filter: &'a Handle, answer: &'a mut Answer) -> u32
    ensures { ReportsLambdaDepth filter.now answer.new result }
{
    match filter {
        Handle::Filter(held) => {
            *answer = counted(held.checked().lambda_depth());
            0
        }
        _ => report_fault(&Fault::OtherKind, answer),
    }
}

/// Writes the paths of the properties that a filter reads.
pub fn property_paths<'a>(
    alloc: Global,
    filter: &'a Handle,
    paths: &'a mut [u8],
    answer: &'a mut Answer,
) -> u32
    ensures { ReportsPaths filter.now paths.old paths.new answer.new result }
{
    match path_lines(alloc, filter) {
        Ok(lines) => report_lines(lines.count, lines.text.as_bytes(), paths, answer),
        Err(fault) => report_fault(&fault, answer),
    }
}

/// Makes a judge.
pub fn new_judge<'a>(alloc: Global, judge: &'a mut Owned) -> u32
    ensures { MakesJudge judge.new result }
{
    let mut answer = Answer::empty();
    give(alloc, judge_with(alloc, None), judge, &mut answer)
}

/// Makes a judge that has a filter of its own.
pub fn new_judge_of<'a>(alloc: Global, filter: &'a Handle, judge: &'a mut Owned) -> u32
    ensures { MakesJudgeOf filter.now judge.new result }
{
    let mut answer = Answer::empty();
    give(alloc, judge_of(alloc, filter), judge, &mut answer)
}

/// Sets a judge's moment.
pub fn set_moment<'a>(judge: &'a mut Handle, moment: &'a [u8]) -> u32
    ensures { SetsMoment judge.old judge.new moment.now result }
{
    put_moment(judge, moment)
}

/// Bounds what a filter may cost on a row.
pub fn set_bound<'a>(judge: &'a mut Handle, most: u64) -> u32
    ensures { SetsBound judge.old judge.new most result }
{
    match judge {
        Handle::Judge(judge) => {
            judge.bound = Some(most);
            0
        }
        _ => Fault::OtherKind.status(),
    }
}

/// Judges a row.
pub fn judge<'a>(
    filter: &'a Handle,
    judge: &'a mut Handle,
    row: &'a [u8],
    answer: &'a mut Answer,
) -> u32
    ensures { JudgesOne filter.now judge.old judge.new row.now answer.new result }
{
    report_row(filter, judge, row, answer)
}

/// Judges a row by the judge's own filter.
pub fn judge_next<'a>(judge: &'a mut Handle, row: &'a [u8], answer: &'a mut Answer) -> u32
    ensures { JudgesNext judge.old judge.new row.now answer.new result }
{
    report_next(judge, row, answer)
}

/// Judges rows, a line each, and writes those that are kept.
pub fn filter_lines<'a>(
    filter: &'a Handle,
    judge: &'a mut Handle,
    rows: &'a [u8],
    kept: &'a mut [u8],
    answer: &'a mut Answer,
) -> u32
    ensures { FiltersLines filter.now judge.old judge.new rows.now kept.old kept.new answer.new result }
{
    report_rows(filter, judge, rows, kept, answer)
}

/// Writes the path of the fault that a judge stores.
pub fn path<'a>(judge: &'a Handle, path: &'a mut [u8], answer: &'a mut Answer) -> u32
    ensures { ReportsPath judge.now path.old path.new answer.new result }
{
    match judge {
        Handle::Judge(judge) => report_bytes(last_path(judge).as_bytes(), path, answer),
        _ => report_fault(&Fault::OtherKind, answer),
    }
}

/// Makes another handle of the same schema, type or filter.
pub fn share<'a>(alloc: Global, handle: &'a Handle, made: &'a mut Owned) -> u32
    ensures { Shares handle.now made.new result }
{
    let mut answer = Answer::empty();
    give(alloc, share_of(handle), made, &mut answer)
}

/// Frees a handle.
pub fn free<'a>(alloc: Global, handle: &'a mut Owned) -> u32
    ensures { Frees handle.old handle.new result }
{
    match std::mem::replace(handle, Owned::none()).into_box(alloc) {
        Some(value) => {
            drop(value);
            0
        }
        None => 1,
    }
}
