//! What was given to the options of a verb.
ghost use Rattle.std.specs.Prelude.{◌≡◌, IfOk, [], codes, map, option_map, unwrap_or};
ghost use Rattle.clap.specs.Words.{found_of, rows_of};
ghost use Rattle.command_plan.specs.CommandLine.{is_flag_set, option_value, option_values};

use super::command_line::Verb;
use clap::ArgMatches;
use std::alloc::{AllocError, Global};

/// The rows file, which `filter` and `explain` may name.
pub(crate) fn rows_file<'a>(verb: Verb, matches: &ArgMatches<'a>) -> Option<&'a str>
    ensures { option_map (λ s. s.now) result
        ≡ option_value verb (codes "rows") (rows_of (found_of matches.now)) }
{
    match verb {
        Verb::Filter | Verb::Explain => matches.get_str("rows"),
        Verb::Check => None,
    }
}

/// What stands for now, which `filter` and `explain` may say.
pub(crate) fn moment_text<'a>(verb: Verb, matches: &ArgMatches<'a>) -> Option<&'a str>
    ensures { option_map (λ s. s.now) result
        ≡ option_value verb (codes "now") (rows_of (found_of matches.now)) }
{
    match verb {
        Verb::Filter | Verb::Explain => matches.get_str("now"),
        Verb::Check => None,
    }
}

/// Whether the rows are a collection, which `filter` alone may say.
pub(crate) fn is_collection(verb: Verb, matches: &ArgMatches<'_>) -> bool
    ensures { result ≡ is_flag_set verb (codes "collection") (rows_of (found_of matches.now)) }
{
    match verb {
        Verb::Filter => matches.get_one::<bool>("collection").unwrap_or(false),
        Verb::Check | Verb::Explain => false,
    }
}

/// Whether the rows are counted, which `filter` alone may say.
pub(crate) fn is_counted(verb: Verb, matches: &ArgMatches<'_>) -> bool
    ensures { result ≡ is_flag_set verb (codes "count") (rows_of (found_of matches.now)) }
{
    match verb {
        Verb::Filter => matches.get_one::<bool>("count").unwrap_or(false),
        Verb::Check | Verb::Explain => false,
    }
}

/// Whether rows at fault are passed over, which `filter` alone may say.
pub(crate) fn skips_faulty(verb: Verb, matches: &ArgMatches<'_>) -> bool
    ensures { result ≡ is_flag_set verb (codes "skip-faulty") (rows_of (found_of matches.now)) }
{
    match verb {
        Verb::Filter => matches.get_one::<bool>("skip-faulty").unwrap_or(false),
        Verb::Check | Verb::Explain => false,
    }
}

/// Whether the entities of a collection are written, which `filter` alone may say.
pub(crate) fn writes_items(verb: Verb, matches: &ArgMatches<'_>) -> bool
    ensures { result ≡ is_flag_set verb (codes "items") (rows_of (found_of matches.now)) }
{
    match verb {
        Verb::Filter => matches.get_one::<bool>("items").unwrap_or(false),
        Verb::Check | Verb::Explain => false,
    }
}

/// The text of the number of the row that is explained, which `explain` alone may say.
pub(crate) fn explained_row<'a>(verb: Verb, matches: &ArgMatches<'a>) -> Option<&'a str>
    ensures { option_map (λ s. s.now) result
        ≡ option_value verb (codes "row") (rows_of (found_of matches.now)) }
{
    match verb {
        Verb::Explain => matches.get_str("row"),
        Verb::Check | Verb::Filter => None,
    }
}

/// Which part of the rows is asked for, which `filter` alone may say.
pub(crate) fn part_text<'a>(verb: Verb, matches: &ArgMatches<'a>) -> Option<&'a str>
    ensures { option_map (λ s. s.now) result
        ≡ option_value verb (codes "part") (rows_of (found_of matches.now)) }
{
    match verb {
        Verb::Filter => matches.get_str("part"),
        Verb::Check | Verb::Explain => None,
    }
}

/// The files of rows that were given, which `filter` and `explain` may name; `None` without one.
fn given_files<'m, 'a>(verb: Verb, matches: &'m ArgMatches<'a>) -> Option<&'m [&'a str]>
    ensures { unwrap_or (option_map (λ names. map (λ s. s.now) names.now) result) []
        ≡ option_values verb (codes "rows") (rows_of (found_of matches.now)) }
{
    match verb {
        Verb::Filter | Verb::Explain => matches.get_raw("rows"),
        Verb::Check => None,
    }
}

/// The same in a list of its own.
pub(crate) fn rows_files<'a>(
    alloc: Global,
    verb: Verb,
    matches: &ArgMatches<'a>,
) -> Result<Vec<&'a str>, AllocError>
    ensures { IfOk result (λ names. map (λ s. s.now) names.items
        ≡ option_values verb (codes "rows") (rows_of (found_of matches.now))) }
{
    let mut names = Vec::new(alloc);
    let Some(given) = given_files(verb, matches) else {
        return Ok(names);
    };
    names.extend_from_slice(given)?;
    Ok(names)
}
