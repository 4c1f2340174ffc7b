ghost use Rattle.std.specs.Prelude.{◌≡◌, IfOk, MatchResult, false, map};
ghost use Rattle.clap.specs.Words.{App, found_of, rows_of, rule_of};
ghost use Rattle.command_plan.specs.CommandLine.{HasValues, IsPlanOf, IsRefusedBy};
ghost use Rattle.command_plan.specs.CommandLine.{check_app, counting_app, explain_app, filter_app, flag_rule, formed_app};
ghost use Rattle.command_plan.specs.CommandLine.{odfilter_app, repeated_rule, rowless_app, text_rule, types_app, verb_app};
ghost use Rattle.command_plan.specs.private.Planner.{HasTypesTexts, HasVerb, HasVerbTexts, IsApp, IsClapFault, IsEnteredBy};
ghost use Rattle.command_plan.specs.private.Planner.{IsNoLineFault, IsNotOneFault};

use super::command_line::{Plan, PlanFault, Verb};
use super::verb_values::{
    explained_row, is_collection, is_counted, moment_text, part_text, rows_file, rows_files,
    skips_faulty, writes_items,
};
use clap::error::ErrorKind;
use clap::{Arg, ArgAction, ArgMatches, Command, Error};
use std::alloc::{AllocError, Global};

/// The version that the program reports.
const VERSION: &str = "0.1.0";

/// What stands at the end of each help.
const AFTER_HELP: &str = "\
Examples:
  odfilter check --schema schema.json --type Mini.Item --filter \"Name eq 'a'\"
  odfilter explain --schema schema.json --type Mini.Item --filter \"Name eq 'a'\" --rows rows.json --row 2
  odfilter filter --schema schema.json --type Mini.Item --filter \"Name eq 'a'\" --rows rows.json
  odfilter filter --schema schema.json --type Mini.Item --query '$filter=ID%20eq%201' <rows.json
  odfilter filter --schema schema.json --type Mini.Item --filter \"Name eq 'a'\" --collection <answer.json
  odfilter types --schema schema.json

Statuses:
  0  done; or help or the version was asked for
  1  the filter was refused
  2  the command line was refused
  3  the schema was refused, or has no such entity type
  4  a row was refused, or its evaluation failed
  5  a file or stream could not be read or written
  6  out of memory";

/// What is said of the option that names rows.
const ROWS_HELP: &str =
    "Rows, one JSON object a line; filter takes several files; - and none are standard input";

/// What is said of the option that gives the moment.
const NOW_HELP: &str =
    "What now() stands for, as 2020-01-01T00:00:00Z; needed by a filter that calls it";

/// An option that takes a text.
fn text_option<'a>(alloc: Global, name: &'a str, value: &'a str, help: &'a str) -> Arg<'a>
    ensures rule { rule_of result ≡ text_rule name.entry.now false }
    ensures local { result.global ≡ false }
{
    Arg::new(alloc, name)
        .long(name)
        .value_name(value)
        .help(help)
        .action(ArgAction::Set)
}

/// An option that takes a text each time that it is given.
fn repeated_option<'a>(alloc: Global, name: &'a str, value: &'a str, help: &'a str) -> Arg<'a>
    ensures rule { rule_of result ≡ repeated_rule name.entry.now }
    ensures local { result.global ≡ false }
{
    Arg::new(alloc, name)
        .long(name)
        .value_name(value)
        .help(help)
        .action(ArgAction::Append)
}

/// An option that takes no text.
fn flag<'a>(alloc: Global, name: &'a str, help: &'a str) -> Arg<'a>
    ensures rule { rule_of result ≡ flag_rule name.entry.now }
    ensures local { result.global ≡ false }
{
    Arg::new(alloc, name)
        .long(name)
        .help(help)
        .action(ArgAction::SetTrue)
}

/// The command with the options that say how a run reports.
fn with_form<'a>(alloc: Global, command: Command<'a>) -> Result<Command<'a>, AllocError>
    ensures { (app : App) → IsApp app command.entry → IfOk result (IsApp (formed_app app)) }
{
    let hints = text_option(
        alloc,
        "hints",
        "WHEN",
        "Sentences for people after the lines of faults: auto (at a terminal), always or never",
    );
    let format = text_option(
        alloc,
        "format",
        "FORM",
        "How faults and what is found are written: text or json",
    );
    command.arg(hints)?.arg(format)
}

/// The subcommand of a verb, with the options that every verb has.
fn verb_command<'a>(alloc: Global, word: &'a str, about: &'a str) -> Result<Command<'a>, AllocError>
    ensures { IfOk result (IsApp (verb_app word.entry.now)) }
{
    let schema = text_option(alloc, "schema", "FILE", "CSDL JSON that declares the type").required(
        true,
    );
    let named = text_option(
        alloc,
        "type",
        "NAME",
        "The entity type of the rows, with its namespace",
    )
    .required(true);
    let filter = text_option(
        alloc,
        "filter",
        "TEXT",
        "The text of a $filter; as --filter=TEXT if it begins with '-'",
    );
    let query = text_option(
        alloc,
        "query",
        "TEXT",
        "A query string as it stands in a URL, with the filter and no other option of OData",
    );
    let command = Command::new(alloc, word)
        .about(about)
        .after_help(AFTER_HELP)
        .arg(schema)?
        .arg(named)?
        .arg(filter)?
        .arg(query)?;
    with_form(alloc, command)
}

/// The subcommand `check`.
fn check_command<'a>(alloc: Global) -> Result<Command<'a>, AllocError>
    ensures { IfOk result (IsApp check_app) }
{
    verb_command(
        alloc,
        "check",
        "Says whether a filter fits a type, and its canonical text",
    )
}

/// The subcommand `explain`, which may name a row that it says each node's value on, and what stands for now.
fn explain_command<'a>(alloc: Global) -> Result<Command<'a>, AllocError>
    ensures { IfOk result (IsApp explain_app) }
{
    let rows = text_option(alloc, "rows", "FILE", ROWS_HELP);
    let row = text_option(
        alloc,
        "row",
        "NUMBER",
        "The line of the row that is explained, from 1; the first one of --rows without this",
    );
    let now = text_option(alloc, "now", "MOMENT", NOW_HELP);
    let about =
        "Says of each node of a filter where it stands, what it is, its type, and its value on a row";
    let command = verb_command(alloc, "explain", about)?;
    command.arg(rows)?.arg(row)?.arg(now)
}

/// The subcommand `filter`, which may name its rows, say what stands for now, say that the rows are a collection, ask
/// for its entities, and for one part of the rows.
fn filter_command<'a>(alloc: Global) -> Result<Command<'a>, AllocError>
    ensures { IfOk result (IsApp filter_app) }
{
    let rows = repeated_option(alloc, "rows", "FILE", ROWS_HELP);
    let now = text_option(alloc, "now", "MOMENT", NOW_HELP);
    let collection = flag(
        alloc,
        "collection",
        "The rows are the array `value` of one JSON object; the indexes of the kept ones are written",
    );
    let items = flag(
        alloc,
        "items",
        "Of a collection the kept entities are written, a line each, instead of their indexes",
    );
    let part = text_option(
        alloc,
        "part",
        "K/N",
        "Of a file of rows the lines that begin in the K-th of N equal parts",
    );
    let about = "Writes the rows whose outcome is true, as they come";
    let command = verb_command(alloc, "filter", about)?
        .arg(rows)?
        .arg(now)?
        .arg(collection)?
        .arg(items)?
        .arg(part)?;
    with_counts(alloc, command)
}

/// The command with the flags of runs over rows that may be at fault.
fn with_counts<'a>(alloc: Global, command: Command<'a>) -> Result<Command<'a>, AllocError>
    ensures { (app : App) → IsApp app command.entry → IfOk result (IsApp (counting_app app)) }
{
    let count = flag(
        alloc,
        "count",
        "At the end, says how many rows there were, how many were kept, and how many were at fault",
    );
    let skip = flag(
        alloc,
        "skip-faulty",
        "Reports each row at fault and goes on; the status is 4 at the end",
    );
    command.arg(count)?.arg(skip)
}

/// The command with the subcommands that read no rows.
fn rowless_command<'a>(alloc: Global) -> Result<Command<'a>, AllocError>
    ensures { IfOk result (IsApp rowless_app) }
{
    Command::new(alloc, "odfilter")
        .about("Checks an OData $filter against a type, and filters rows by it")
        .after_help(AFTER_HELP)
        .version(VERSION)
        .subcommand_required(true)
        .subcommand(check_command(alloc)?)?
        .subcommand(explain_command(alloc)?)
}

/// The subcommand `types`, which has no filter.
fn types_command<'a>(alloc: Global) -> Result<Command<'a>, AllocError>
    ensures { IfOk result (IsApp types_app) }
{
    let schema = text_option(alloc, "schema", "FILE", "CSDL JSON that declares the types").required(
        true,
    );
    let command = Command::new(alloc, "types")
        .about("Lists the entity and complex types of a schema with their properties")
        .after_help(AFTER_HELP)
        .arg(schema)?;
    with_form(alloc, command)
}

/// The command line as `clap` reads it.
fn command<'a>(alloc: Global) -> Result<Command<'a>, AllocError>
    ensures { IfOk result (IsApp odfilter_app) }
{
    rowless_command(alloc)?
        .subcommand(filter_command(alloc)?)?
        .subcommand(types_command(alloc)?)
}

fn fault_of(error: Error) -> PlanFault
    ensures { IsClapFault error result }
{
    match error.kind() {
        ErrorKind::OutOfMemory => PlanFault::Memory,
        _ => PlanFault::Clap(error),
    }
}

/// The plan of what stands after a verb.
fn plan_of<'a>(verb: Verb, matches: &ArgMatches<'a>) -> Result<Plan<'a>, PlanFault>
    ensures verb { IfOk result (λ plan. plan.verb ≡ verb) }
    ensures values { MatchResult result (HasValues (rows_of (found_of matches.now)))
        (IsNotOneFault (rows_of (found_of matches.now))) }
{
    let filter = matches.get_str("filter");
    let query = matches.get_str("query");
    if filter.is_some() == query.is_some() {
        return Err(PlanFault::OneOf);
    }
    Ok(Plan {
        verb,
        schema: matches.get_str("schema").unwrap_or(""),
        named: matches.get_str("type").unwrap_or(""),
        filter,
        query,
        rows: rows_file(verb, matches),
        now: moment_text(verb, matches),
        collection: is_collection(verb, matches),
    })
}

/// A command line that was read: its plan, and the texts that say how a run of it reports.
#[derive(Drop)]
pub(crate) struct Line<'a> {
    pub(crate) plan: Plan<'a>,
    pub(crate) hints: Option<&'a str>,
    pub(crate) format: Option<&'a str>,
    pub(crate) rows: Vec<&'a str>,
    pub(crate) count: bool,
    pub(crate) skip_faulty: bool,
    pub(crate) items: bool,
    pub(crate) row: Option<&'a str>,
    pub(crate) part: Option<&'a str>,
}

/// A command line that asks for the types of a schema, and the texts that say how these are reported.
#[derive(Drop)]
pub(crate) struct TypesLine<'a> {
    pub(crate) schema: &'a str,
    pub(crate) hints: Option<&'a str>,
    pub(crate) format: Option<&'a str>,
}

/// What stands after the subcommand that was entered.
#[derive(Drop)]
pub(crate) enum Entered<'a> {
    Run(Line<'a>),
    Types(TypesLine<'a>),
}

/// The line of what stands after a verb.
fn line_of<'a>(
    alloc: Global,
    verb: Verb,
    matches: &ArgMatches<'a>,
) -> Result<Entered<'a>, PlanFault>
    ensures verb { IfOk result (HasVerb verb) }
    ensures values { MatchResult result (HasVerbTexts (rows_of (found_of matches.now)))
        (IsNoLineFault (rows_of (found_of matches.now))) }
{
    let plan = match plan_of(verb, matches) {
        Ok(plan) => plan,
        Err(fault) => return Err(fault),
    };
    let hints = matches.get_str("hints");
    let format = matches.get_str("format");
    match rows_files(alloc, verb, matches) {
        Ok(rows) => Ok(Entered::Run(Line {
            plan,
            hints,
            format,
            rows,
            count: is_counted(verb, matches),
            skip_faulty: skips_faulty(verb, matches),
            items: writes_items(verb, matches),
            row: explained_row(verb, matches),
            part: part_text(verb, matches),
        })),
        Err(_) => Err(PlanFault::Memory),
    }
}

/// The line of what stands after `types`.
fn types_of<'a>(matches: &ArgMatches<'a>) -> TypesLine<'a>
    ensures { HasTypesTexts (rows_of (found_of matches.now)) result }
{
    TypesLine {
        schema: matches.get_str("schema").unwrap_or(""),
        hints: matches.get_str("hints"),
        format: matches.get_str("format"),
    }
}

/// Reads a command line.
pub(crate) fn read_line<'a>(alloc: Global, words: &'a [&'a str]) -> Result<Entered<'a>, PlanFault>
    ensures { MatchResult result (IsEnteredBy (map (λ s. s.now) words.entry.now))
        (IsRefusedBy (map (λ s. s.now) words.entry.now)) }
{
    let command = match command(alloc) {
        Ok(command) => command,
        Err(_) => return Err(PlanFault::Memory),
    };
    let matches = match command.try_get_matches_from(words) {
        Ok(matches) => matches,
        Err(error) => return Err(fault_of(error)),
    };
    match matches.subcommand_matches("filter") {
        Some(inner) => line_of(alloc, Verb::Filter, inner),
        None => match matches.subcommand_matches("check") {
            Some(inner) => line_of(alloc, Verb::Check, inner),
            None => match matches.subcommand_matches("explain") {
                Some(inner) => line_of(alloc, Verb::Explain, inner),
                None => match matches.subcommand_matches("types") {
                    Some(inner) => Ok(Entered::Types(types_of(inner))),
                    None => Err(PlanFault::OneOf),
                },
            },
        },
    }
}

/// Reads a command line, the program's name first, for its plan alone.
///
/// `OneOf` is returned where not exactly one of filter and query is given, and for `types`, `Clap` where `clap` refuses
/// the words or is asked for help or the version.
#[inline(never)]
pub fn plan<'a>(alloc: Global, words: &'a [&'a str]) -> Result<Plan<'a>, PlanFault>
    ensures { MatchResult result (IsPlanOf (map (λ s. s.now) words.entry.now))
        (IsRefusedBy (map (λ s. s.now) words.entry.now)) }
{
    match read_line(alloc, words) {
        Ok(Entered::Run(line)) => Ok(line.plan),
        Ok(Entered::Types(_)) => Err(PlanFault::OneOf),
        Err(fault) => Err(fault),
    }
}
