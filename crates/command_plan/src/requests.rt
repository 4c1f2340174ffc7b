//! Command lines, read whole: a plan, and how a run of it reports.
ghost use Rattle.std.specs.Prelude.{◌≡◌, ◌&&◌, ◌||◌, List, MatchResult, is_some, map, not, option_map};
ghost use Rattle.clap.specs.Words.{Text};
ghost use Rattle.command_plan.specs.PartTexts.{are_lines_of_a_file};
ghost use Rattle.command_plan.specs.Requests.{IsNoRequest, IsRequestOf, format_asked, hints_asked};
ghost use Rattle.command_plan.specs.private.Planner.{IsLineOf, IsTypesLineOf};

use super::command_line::{Format, Hints, Request, RequestFault, RunRequest, TypesRequest};
use super::part_texts::{is_one_file, part_asked};
use super::planner::{Entered, Line, TypesLine, read_line};
use line_filter::Part;
use std::alloc::Global;

/// When hints are wanted, by the text of the option; `None` if it is none of its words.
fn hints_asked(text: Option<&str>) -> Option<Hints>
    ensures { result ≡ hints_asked (option_map (λ s. s.now) text.entry) }
{
    let Some(text) = text else {
        return Some(Hints::Auto);
    };
    if text == "auto" {
        Some(Hints::Auto)
    } else if text == "always" {
        Some(Hints::Always)
    } else if text == "never" {
        Some(Hints::Never)
    } else {
        None
    }
}

/// Which form is wanted, by the text of the option; `None` if it is none of its words.
fn format_asked(text: Option<&str>) -> Option<Format>
    ensures { result ≡ format_asked (option_map (λ s. s.now) text.entry) }
{
    let Some(text) = text else {
        return Some(Format::Text);
    };
    if text == "text" {
        Some(Format::Text)
    } else if text == "json" {
        Some(Format::Json)
    } else {
        None
    }
}

/// Whether the rows are a collection, and are to be counted or passed over as lines are.
fn asks_for_both(line: &Line<'_>) -> bool
    ensures { result ≡ (line.now.plan.collection && (line.now.count || line.now.skip_faulty)) }
{
    line.plan.collection && (line.count || line.skip_faulty)
}

/// Whether the entities of a collection are to be written, but the rows are not one.
fn lacks_collection(line: &Line<'_>) -> bool
    ensures { result ≡ (line.now.items && not line.now.plan.collection) }
{
    line.items && !line.plan.collection
}

/// Whether the rows are the lines of one file.
fn reads_a_file(line: &Line<'_>) -> bool
    ensures { result ≡ are_lines_of_a_file line.now.plan.collection (map (λ s. s.now) line.now.rows.items) }
{
    !line.plan.collection && is_one_file(line.rows.as_slice())
}

/// Whether a part is asked for, and of other rows than the lines of one file.
fn lacks_lines(line: &Line<'_>, part: &Option<Part>) -> bool
    ensures { result ≡ (is_some part.now
        && not (are_lines_of_a_file line.now.plan.collection (map (λ s. s.now) line.now.rows.items))) }
{
    part.is_some() && !reads_a_file(line)
}

/// The request of a line with a plan.
fn run_request<'a>(line: Line<'a>) -> Result<Request<'a>, RequestFault>
    ensures { (words : List Text) → IsLineOf words line.entry
        → MatchResult result (IsRequestOf words) (IsNoRequest words) }
{
    let Some(hints) = hints_asked(line.hints) else {
        return Err(RequestFault::Hints);
    };
    let Some(format) = format_asked(line.format) else {
        return Err(RequestFault::Format);
    };
    if asks_for_both(&line) {
        return Err(RequestFault::Collection);
    }
    if lacks_collection(&line) {
        return Err(RequestFault::Items);
    }
    let Some(part) = part_asked(line.part) else {
        return Err(RequestFault::Part);
    };
    if lacks_lines(&line, &part) {
        return Err(RequestFault::PartOfRows);
    }
    Ok(Request::Run(RunRequest {
        plan: line.plan,
        hints,
        format,
        rows: line.rows,
        count: line.count,
        skip_faulty: line.skip_faulty,
        items: line.items,
        row: line.row,
        part,
    }))
}

/// The request of a line of `types`.
fn types_request<'a>(line: TypesLine<'a>) -> Result<Request<'a>, RequestFault>
    ensures { (words : List Text) → IsTypesLineOf words line.entry
        → MatchResult result (IsRequestOf words) (IsNoRequest words) }
{
    let Some(hints) = hints_asked(line.hints) else {
        return Err(RequestFault::Hints);
    };
    let Some(format) = format_asked(line.format) else {
        return Err(RequestFault::Format);
    };
    Ok(Request::Types(TypesRequest {
        schema: line.schema,
        hints,
        format,
    }))
}

/// Reads a command line, the program's name first.
///
/// A fault of its plan is as [`plan`](crate::plan) has it, and is reported before `Hints`, `Format`, `Collection`,
/// `Items`, `Part` and `PartOfRows`. A line of `types` has no plan, and no fault of one.
#[inline(never)]
pub fn request<'a>(alloc: Global, words: &'a [&'a str]) -> Result<Request<'a>, RequestFault>
    ensures { MatchResult result (IsRequestOf (map (λ s. s.now) words.entry.now))
        (IsNoRequest (map (λ s. s.now) words.entry.now)) }
{
    match read_line(alloc, words) {
        Ok(Entered::Run(line)) => run_request(line),
        Ok(Entered::Types(line)) => types_request(line),
        Err(fault) => Err(RequestFault::Plan(fault)),
    }
}
