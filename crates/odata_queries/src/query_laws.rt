//! What the definitions of a query's filter and of its first fault say of every query.

ghost use Rattle.std.specs.Prelude.{◌≡◌, ℕ, List, Option, Some};
ghost use Rattle.odata_queries.specs.Query.{IsFilterOf, IsQueryFault};
ghost use Rattle.odata_queries.specs.QueryExamples.{escaped_filter, escaped_query, paged_query};
ghost use Rattle.odata_queries.specs.declared.query_fault.QueryFault.{QueryFault};

/// A query has at most one filter or first fault, and never both.
pub fn one_query_reading()
    ensures filter { (query : List ℕ) (first second : Option (List ℕ))
        → IsFilterOf query first → IsFilterOf query second → first ≡ second }
    ensures fault { (query : List ℕ) (first second : QueryFault)
        → IsQueryFault query first → IsQueryFault query second → first ≡ second }
    ensures not_both { (query : List ℕ) (filter : Option (List ℕ)) (fault : QueryFault)
        → IsFilterOf query filter → IsQueryFault query fault → ⊥ }
{}

/// Worked queries: `$filter=a%2Bb%26c` asks for `a+b&c`. `$top=5&$filter=Active` has another system query option before
/// the filter.
pub fn queries_by_example()
    ensures escaped { IsFilterOf escaped_query (Some escaped_filter) }
    ensures paged { IsQueryFault paged_query (QueryFault.OtherOption 0) }
{}
