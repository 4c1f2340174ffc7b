//! The calls that report more than a text, where its buffer stands at a null address: as in `length_calls`.
ghost use Rattle.std.specs.Prelude.{◌≡◌, ℕ, List, []};
ghost use Rattle.odfilter_c.specs.Loans.{UnlessLong};
ghost use Rattle.handle_calls.specs.Reports.{ReadsSchema};
ghost use Rattle.handle_calls.specs.UrlCalls.{ChecksUrl};
ghost use Rattle.handle_calls.specs.RowReports.{FiltersLines};

use crate::null_calls;
use call_handles::{Answer, Handle, Owned};
use handle_calls::calls;
use std::alloc::Global;

pub(crate) fn read_schema_to_null<'a>(
    alloc: Global,
    document: &'a [u8],
    length: usize,
    schema: &'a mut Owned,
    answer: &'a mut Answer,
) -> u32
    ensures { UnlessLong length ((schema.new ≡ schema.old) × ((answer.new ≡ answer.old) × (result ≡ 1)))
        ((last : List ℕ) × ReadsSchema document.now [] last schema.new answer.new result) }
{
    if length > 0 {
        return 1;
    }
    let mut none = [0; 0];
    calls::read_schema(alloc, document, none.as_mut_slice(), schema, answer)
}

pub(crate) fn read_schema_to_null_at_null<'a>(
    alloc: Global,
    document_length: usize,
    length: usize,
    schema: &'a mut Owned,
    answer: &'a mut Answer,
) -> u32
    ensures { UnlessLong length ((schema.new ≡ schema.old) × ((answer.new ≡ answer.old) × (result ≡ 1)))
        ((last : List ℕ) × UnlessLong document_length
        ((last ≡ []) × ((schema.new ≡ schema.old) × ((answer.new ≡ answer.old) × (result ≡ 1))))
        (ReadsSchema [] [] last schema.new answer.new result)) }
{
    if length > 0 {
        return 1;
    }
    let mut none = [0; 0];
    null_calls::read_schema_at_null(alloc, document_length, none.as_mut_slice(), schema, answer)
}

pub(crate) fn check_url_to_null<'a>(
    alloc: Global,
    given: &'a Handle,
    query: &'a [u8],
    length: usize,
    made: &'a mut Owned,
    answer: &'a mut Answer,
) -> u32
    ensures { UnlessLong length ((made.new ≡ made.old) × ((answer.new ≡ answer.old) × (result ≡ 1)))
        ((last : List ℕ) × ChecksUrl given.now query.now [] last made.new answer.new result) }
{
    if length > 0 {
        return 1;
    }
    let mut none = [0; 0];
    calls::check_url(alloc, given, query, none.as_mut_slice(), made, answer)
}

pub(crate) fn check_url_to_null_at_null<'a>(
    alloc: Global,
    given: &'a Handle,
    query_length: usize,
    length: usize,
    made: &'a mut Owned,
    answer: &'a mut Answer,
) -> u32
    ensures { UnlessLong length ((made.new ≡ made.old) × ((answer.new ≡ answer.old) × (result ≡ 1)))
        ((last : List ℕ) × UnlessLong query_length
        ((last ≡ []) × ((made.new ≡ made.old) × ((answer.new ≡ answer.old) × (result ≡ 1))))
        (ChecksUrl given.now [] [] last made.new answer.new result)) }
{
    if length > 0 {
        return 1;
    }
    let mut none = [0; 0];
    null_calls::check_url_at_null(
        alloc,
        given,
        query_length,
        none.as_mut_slice(),
        made,
        answer,
    )
}

pub(crate) fn filter_lines_to_null<'a>(
    filter: &'a Handle,
    judge: &'a mut Handle,
    rows: &'a [u8],
    length: usize,
    answer: &'a mut Answer,
) -> u32
    ensures { UnlessLong length ((judge.new ≡ judge.old) × ((answer.new ≡ answer.old) × (result ≡ 1)))
        ((last : List ℕ) × FiltersLines filter.now judge.old judge.new rows.now [] last answer.new result) }
{
    if length > 0 {
        return 1;
    }
    let mut none = [0; 0];
    calls::filter_lines(filter, judge, rows, none.as_mut_slice(), answer)
}

pub(crate) fn filter_lines_to_null_at_null<'a>(
    filter: &'a Handle,
    judge: &'a mut Handle,
    rows_length: usize,
    length: usize,
    answer: &'a mut Answer,
) -> u32
    ensures { UnlessLong length ((judge.new ≡ judge.old) × ((answer.new ≡ answer.old) × (result ≡ 1)))
        ((last : List ℕ) × UnlessLong rows_length
        ((judge.new ≡ judge.old) × ((last ≡ []) × ((answer.new ≡ answer.old) × (result ≡ 1))))
        (FiltersLines filter.now judge.old judge.new [] [] last answer.new result)) }
{
    if length > 0 {
        return 1;
    }
    let mut none = [0; 0];
    null_calls::filter_lines_at_null(filter, judge, rows_length, none.as_mut_slice(), answer)
}
