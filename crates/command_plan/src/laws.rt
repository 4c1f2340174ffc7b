//! Laws of command lines, stated on functions that do nothing.
ghost use Rattle.std.specs.Prelude.{◌≡◌, ◌∷◌, [], None, false, true, Some, codes};
ghost use Rattle.clap.specs.Words.{all_of, fault_of, first_of};
ghost use Rattle.clap.specs.declared.error.kind.ErrorKind.TheVariants as kind;
ghost use Rattle.command_plan.specs.CommandLine.{AskForTypes, Enters, GivesNotOne, IsTaken, is_flag_set, odfilter_app};
ghost use Rattle.command_plan.specs.CommandLine.{option_value, types_matches, verb_matches};
ghost use Rattle.command_plan.specs.PartTexts.{IsPartText};
ghost use Rattle.command_plan.specs.Requests.{format_asked, hints_asked};
ghost use Rattle.command_plan.specs.declared.command_line.Format.{Format};
ghost use Rattle.command_plan.specs.declared.command_line.Hints.{Hints};
ghost use Rattle.command_plan.specs.declared.command_line.Verb.{Verb};
ghost use Rattle.command_plan.specs.WorkedLines as worked;

/// Worked command lines. A whole line is taken with its four values and no collection, one with `--collection` or
/// `--now` after it with that, and one with a query instead of the filter with that. Lines with neither and with both
/// are taken and give not one of them. Lines without a schema and with an unknown option are not taken. `check` takes a
/// filter, and no rows, no moment and no collection; `explain` takes a query, a file of rows, a row's number and a
/// moment, and no collection; `filter` takes no row's number. The program reports its version, its subcommand has none
/// of its own, and help goes before what is missing.
pub fn lines_by_example()
    ensures taken { IsTaken worked.whole }
    ensures schema { first_of (codes "schema") (verb_matches worked.whole) ≡ Some (codes "s") }
    ensures named { first_of (codes "type") (verb_matches worked.whole) ≡ Some (codes "N.T") }
    ensures filter { first_of (codes "filter") (verb_matches worked.whole) ≡ Some (codes "true") }
    ensures rows { first_of (codes "rows") (verb_matches worked.whole) ≡ Some (codes "r") }
    ensures lines { is_flag_set Verb.Filter (codes "collection") (verb_matches worked.whole) ≡ false }
    ensures collection_taken { IsTaken worked.with_collection }
    ensures collection { is_flag_set Verb.Filter (codes "collection") (verb_matches worked.with_collection) ≡ true }
    ensures now_taken { IsTaken worked.with_now }
    ensures now { first_of (codes "now") (verb_matches worked.with_now) ≡ Some (codes "m") }
    ensures query_taken { IsTaken worked.with_query }
    ensures query { first_of (codes "query") (verb_matches worked.with_query) ≡ Some (codes "x") }
    ensures neither { GivesNotOne worked.without_filter }
    ensures both { GivesNotOne worked.with_both }
    ensures missing { fault_of odfilter_app worked.without_schema ≡ kind.MissingRequiredArgument ∷ [] }
    ensures unknown { fault_of odfilter_app worked.with_unknown_option ≡ kind.UnknownArgument ∷ [] }
    ensures version { fault_of odfilter_app worked.version_alone ≡ kind.DisplayVersion ∷ [] }
    ensures no_version { fault_of odfilter_app worked.version_of_filter ≡ kind.UnknownArgument ∷ [] }
    ensures check_taken { IsTaken worked.whole_check }
    ensures check_enters { Enters worked.whole_check Verb.Check }
    ensures check_filter { first_of (codes "filter") (verb_matches worked.whole_check) ≡ Some (codes "true") }
    ensures check_has_no_rows { fault_of odfilter_app worked.check_with_rows ≡ kind.UnknownArgument ∷ [] }
    ensures check_has_no_now { fault_of odfilter_app worked.check_with_now ≡ kind.UnknownArgument ∷ [] }
    ensures check_has_no_collection { fault_of odfilter_app worked.check_with_collection ≡ kind.UnknownArgument ∷ [] }
    ensures explain_taken { IsTaken worked.whole_explain }
    ensures explain_enters { Enters worked.whole_explain Verb.Explain }
    ensures explain_query { first_of (codes "query") (verb_matches worked.whole_explain) ≡ Some (codes "x") }
    ensures explain_row_taken { IsTaken worked.explain_with_row }
    ensures explain_rows { option_value Verb.Explain (codes "rows") (verb_matches worked.explain_with_row)
        ≡ Some (codes "r") }
    ensures explain_row { option_value Verb.Explain (codes "row") (verb_matches worked.explain_with_row)
        ≡ Some (codes "2") }
    ensures explain_now { option_value Verb.Explain (codes "now") (verb_matches worked.explain_with_row)
        ≡ Some (codes "m") }
    ensures explain_has_no_collection { fault_of odfilter_app worked.explain_with_collection
        ≡ kind.UnknownArgument ∷ [] }
    ensures filter_has_no_row { fault_of odfilter_app worked.filter_with_row ≡ kind.UnknownArgument ∷ [] }
    ensures help { fault_of odfilter_app worked.help_of_filter ≡ kind.DisplayHelp ∷ [] }
{}

/// Worked command lines with options of reports and of rows. A line with `--hints` and `--format` is taken with their
/// values, one with a second `--rows` with both files and the first as the plan's, and with `--count` and
/// `--skip-faulty` with these. A collection's entities are written where `--items` is given, and only there. A part of
/// the rows is asked for by the text after `--part`. `check` takes any word after `--hints`; a word that is none of the
/// three asks for no hints.
pub fn reports_by_example()
    ensures taken { IsTaken worked.with_reports }
    ensures hints { hints_asked (first_of (codes "hints") (verb_matches worked.with_reports)) ≡ Some Hints.Never }
    ensures format { format_asked (first_of (codes "format") (verb_matches worked.with_reports)) ≡ Some Format.Json }
    ensures rows { all_of (codes "rows") (verb_matches worked.with_reports) ≡ Some (codes "r" ∷ []) }
    ensures more_taken { IsTaken worked.with_more_rows }
    ensures more_rows { all_of (codes "rows") (verb_matches worked.with_more_rows) ≡ Some (codes "r" ∷ codes "q" ∷ []) }
    ensures first_rows { first_of (codes "rows") (verb_matches worked.with_more_rows) ≡ Some (codes "r") }
    ensures count { is_flag_set Verb.Filter (codes "count") (verb_matches worked.with_more_rows) ≡ true }
    ensures skip { is_flag_set Verb.Filter (codes "skip-faulty") (verb_matches worked.with_more_rows) ≡ true }
    ensures items_taken { IsTaken worked.with_items }
    ensures items { is_flag_set Verb.Filter (codes "items") (verb_matches worked.with_items) ≡ true }
    ensures no_items { is_flag_set Verb.Filter (codes "items") (verb_matches worked.with_collection) ≡ false }
    ensures part_taken { IsTaken worked.with_part }
    ensures part { first_of (codes "part") (verb_matches worked.with_part) ≡ Some (codes "2/4") }
    ensures part_text { IsPartText (codes "2/4") 2 4 }
    ensures check_taken { IsTaken worked.check_with_hints }
    ensures no_hints { hints_asked (first_of (codes "hints") (verb_matches worked.check_with_hints)) ≡ None }
{}

/// Worked command lines of `types`. One with a schema is taken with its file and its format, and has no filter. A line
/// without a schema and one with a filter are not taken.
pub fn types_by_example()
    ensures asks { AskForTypes worked.whole_types }
    ensures schema { first_of (codes "schema") (types_matches worked.whole_types) ≡ Some (codes "s") }
    ensures format { format_asked (first_of (codes "format") (types_matches worked.whole_types)) ≡ Some Format.Json }
    ensures no_plan { GivesNotOne worked.whole_types }
    ensures missing { fault_of odfilter_app worked.types_alone ≡ kind.MissingRequiredArgument ∷ [] }
    ensures no_filter { fault_of odfilter_app worked.types_with_filter ≡ kind.UnknownArgument ∷ [] }
{}
