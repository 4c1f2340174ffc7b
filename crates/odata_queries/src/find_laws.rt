//! What the definitions of what is found in a query, and of its first fault, say of every query.

ghost use Rattle.std.specs.Prelude.{◌≡◌, ℕ, ◌<◌, false, true, All, List, [], length, Option, Some, option_map};
ghost use Rattle.std.specs.List.{slice_index_or};
ghost use Rattle.odata_queries.specs.Disguise.{is_disguised};
ghost use Rattle.odata_queries.specs.Find.{FoundModel, IsFindFault, IsFoundIn, IsPlaced, found_in};
ghost use Rattle.odata_queries.specs.Query.{IsFilterOf, is_filter, option_start, options_of};
ghost use Rattle.odata_queries.specs.Readers.{FindsFilter, IsReader, Reader};
ghost use Rattle.odata_queries.specs.declared.find_fault.FindFault.{FindFault};

/// At most one filter is found in a query, or there is a first fault, and never both.
pub fn one_found_reading()
    ensures found { (query : List ℕ) (first second : Option FoundModel)
        → IsFoundIn query first → IsFoundIn query second → first ≡ second }
    ensures fault { (query : List ℕ) (first second : FindFault)
        → IsFindFault query first → IsFindFault query second → first ≡ second }
    ensures not_both { (query : List ℕ) (found : Option FoundModel) (fault : FindFault)
        → IsFoundIn query found → IsFindFault query fault → ⊥ }
{}

/// Where a filter is found, there it stands: whoever puts another value there changes that one alone.
pub fn found_filter_stands_there()
    ensures { (query : List ℕ) (found : FoundModel) → IsFoundIn query (Some found) → IsPlaced query found }
{}

/// `find_filter` finds the text that `filter_of_query` returns, unless an option is disguised.
pub fn same_text_as_alone()
    ensures { (query : List ℕ) (filter : Option (List ℕ)) → IsFilterOf query filter
        → All (λ piece. is_disguised piece ≡ false) (options_of query)
        → (found : Option FoundModel) × IsFoundIn query found × (option_map (λ f. f.text) found ≡ filter) }
{}

/// No reader of the family finds another filter than the one that `find_filter` returns.
///
/// Nor does one find a filter where it returns none: what a reader finds is the first part of that option, with its
/// text.
pub fn no_reader_finds_another()
    ensures { (query : List ℕ) (found : Option FoundModel) (reader : Reader) (option part : ℕ)
        → IsFoundIn query found → IsReader reader → FindsFilter reader query option part
        → (part ≡ 0) × (found ≡ Some (found_in (slice_index_or (options_of query) option [])
        (option_start (options_of query) option))) }
{}

/// What is disguised, some reader of the family takes for a filter, elsewhere than plainly there.
pub fn readers_find_what_is_disguised()
    ensures { (query : List ℕ) (option : ℕ) → option < length (options_of query)
        → is_disguised (slice_index_or (options_of query) option []) ≡ true
        → (reader : Reader) × (part : ℕ) × IsReader reader × FindsFilter reader query option part
        × (is_filter (slice_index_or (options_of query) option []) ≡ true → 0 < part) }
{}
