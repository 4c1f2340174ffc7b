//! The calls where the bytes stand at a null address: with the length 0 they are an empty text, with another length the
//! status is that of a null address, and nothing is written.
ghost use Rattle.std.specs.Prelude.{◌≡◌, []};
ghost use Rattle.odfilter_c.specs.Loans.{UnlessLong};
ghost use Rattle.handle_calls.specs.Reports.{ReadsSchema, FindsType, ChecksText, ChecksQuery};
ghost use Rattle.report_calls.specs.Reports.{ReportsSql};
ghost use Rattle.handle_calls.specs.UrlCalls.{ChecksUrl};
ghost use Rattle.handle_calls.specs.RowReports.{SetsMoment, JudgesOne, JudgesNext, FiltersLines};
ghost use Rattle.report_calls.specs.Sentences.{ReportsSentence, ReportsSentenceFor};
ghost use Rattle.report_calls.specs.SqlHandles.{MakesSql};

use call_handles::{Answer, Handle, Owned};
use handle_calls::{calls, put_moment, report_next};
use report_calls::calls as reports;
use std::alloc::Global;

pub(crate) fn read_schema_at_null<'a>(
    alloc: Global,
    length: usize,
    names: &'a mut [u8],
    schema: &'a mut Owned,
    answer: &'a mut Answer,
) -> u32
    ensures { UnlessLong length
        ((names.new ≡ names.old) × ((schema.new ≡ schema.old) × ((answer.new ≡ answer.old) × (result ≡ 1))))
        (ReadsSchema [] names.old names.new schema.new answer.new result) }
{
    if length > 0 {
        return 1;
    }
    calls::read_schema(alloc, b"".as_slice(), names, schema, answer)
}

pub(crate) fn find_type_at_null<'a>(
    alloc: Global,
    schema: &'a Handle,
    length: usize,
    made: &'a mut Owned,
) -> u32
    ensures { UnlessLong length ((made.new ≡ made.old) × (result ≡ 1)) (FindsType schema.now [] made.new result) }
{
    if length > 0 {
        return 1;
    }
    calls::find_type(alloc, schema, b"".as_slice(), made)
}

pub(crate) fn check_at_null<'a>(
    alloc: Global,
    given: &'a Handle,
    length: usize,
    made: &'a mut Owned,
    answer: &'a mut Answer,
) -> u32
    ensures { UnlessLong length ((made.new ≡ made.old) × ((answer.new ≡ answer.old) × (result ≡ 1)))
        (ChecksText given.now [] made.new answer.new result) }
{
    if length > 0 {
        return 1;
    }
    calls::check(alloc, given, b"".as_slice(), made, answer)
}

pub(crate) fn check_query_at_null<'a>(
    alloc: Global,
    given: &'a Handle,
    length: usize,
    made: &'a mut Owned,
    answer: &'a mut Answer,
) -> u32
    ensures { UnlessLong length ((made.new ≡ made.old) × ((answer.new ≡ answer.old) × (result ≡ 1)))
        (ChecksQuery given.now [] made.new answer.new result) }
{
    if length > 0 {
        return 1;
    }
    calls::check_query(alloc, given, b"".as_slice(), made, answer)
}

pub(crate) fn check_url_at_null<'a>(
    alloc: Global,
    given: &'a Handle,
    length: usize,
    text: &'a mut [u8],
    made: &'a mut Owned,
    answer: &'a mut Answer,
) -> u32
    ensures { UnlessLong length
        ((text.new ≡ text.old) × ((made.new ≡ made.old) × ((answer.new ≡ answer.old) × (result ≡ 1))))
        (ChecksUrl given.now [] text.old text.new made.new answer.new result) }
{
    if length > 0 {
        return 1;
    }
    calls::check_url(alloc, given, b"".as_slice(), text, made, answer)
}

pub(crate) fn sql_at_null<'a>(
    alloc: Global,
    filter: &'a Handle,
    form: u32,
    length: usize,
    text: &'a mut [u8],
    answer: &'a mut Answer,
) -> u32
    ensures { UnlessLong length ((text.new ≡ text.old) × ((answer.new ≡ answer.old) × (result ≡ 1)))
        (ReportsSql filter.now form [] text.old text.new answer.new result) }
{
    if length > 0 {
        return 1;
    }
    reports::sql(alloc, filter, form, b"".as_slice(), text, answer)
}

pub(crate) fn new_sql_at_null<'a>(
    alloc: Global,
    filter: &'a Handle,
    form: u32,
    length: usize,
    made: &'a mut Owned,
    answer: &'a mut Answer,
) -> u32
    ensures { UnlessLong length ((made.new ≡ made.old) × ((answer.new ≡ answer.old) × (result ≡ 1)))
        (MakesSql filter.now form [] made.new answer.new result) }
{
    if length > 0 {
        return 1;
    }
    reports::new_sql(alloc, filter, form, b"".as_slice(), made, answer)
}

pub(crate) fn set_moment_at_null<'a>(judge: &'a mut Handle, length: usize) -> u32
    ensures { UnlessLong length ((judge.new ≡ judge.old) × (result ≡ 1)) (SetsMoment judge.old judge.new [] result) }
{
    if length > 0 {
        return 1;
    }
    put_moment(judge, b"".as_slice())
}

pub(crate) fn judge_at_null<'a>(
    filter: &'a Handle,
    judge: &'a mut Handle,
    length: usize,
    answer: &'a mut Answer,
) -> u32
    ensures { UnlessLong length ((judge.new ≡ judge.old) × ((answer.new ≡ answer.old) × (result ≡ 1)))
        (JudgesOne filter.now judge.old judge.new [] answer.new result) }
{
    if length > 0 {
        return 1;
    }
    calls::judge(filter, judge, b"".as_slice(), answer)
}

pub(crate) fn judge_next_at_null<'a>(
    judge: &'a mut Handle,
    length: usize,
    answer: &'a mut Answer,
) -> u32
    ensures { UnlessLong length ((judge.new ≡ judge.old) × ((answer.new ≡ answer.old) × (result ≡ 1)))
        (JudgesNext judge.old judge.new [] answer.new result) }
{
    if length > 0 {
        return 1;
    }
    report_next(judge, b"".as_slice(), answer)
}

pub(crate) fn filter_lines_at_null<'a>(
    filter: &'a Handle,
    judge: &'a mut Handle,
    length: usize,
    kept: &'a mut [u8],
    answer: &'a mut Answer,
) -> u32
    ensures { UnlessLong length
        ((judge.new ≡ judge.old) × ((kept.new ≡ kept.old) × ((answer.new ≡ answer.old) × (result ≡ 1))))
        (FiltersLines filter.now judge.old judge.new [] kept.old kept.new answer.new result) }
{
    if length > 0 {
        return 1;
    }
    calls::filter_lines(filter, judge, b"".as_slice(), kept, answer)
}

pub(crate) fn fault_text_alone_at_null<'a>(
    alloc: Global,
    status: u32,
    length: usize,
    sentence: &'a mut [u8],
    fault: &'a Answer,
    answer: &'a mut Answer,
) -> u32
    ensures { UnlessLong length ((sentence.new ≡ sentence.old) × ((answer.new ≡ answer.old) × (result ≡ 1)))
        (ReportsSentence status [] sentence.old sentence.new fault.now answer.new result) }
{
    if length > 0 {
        return 1;
    }
    reports::fault_text_alone(alloc, status, b"".as_slice(), sentence, fault, answer)
}

pub(crate) fn fault_text_at_null<'a>(
    alloc: Global,
    given: &'a Handle,
    status: u32,
    length: usize,
    sentence: &'a mut [u8],
    fault: &'a Answer,
    answer: &'a mut Answer,
) -> u32
    ensures { UnlessLong length ((sentence.new ≡ sentence.old) × ((answer.new ≡ answer.old) × (result ≡ 1)))
        (ReportsSentenceFor given.now status [] sentence.old sentence.new fault.now answer.new result) }
{
    if length > 0 {
        return 1;
    }
    reports::fault_text(
        alloc,
        given,
        status,
        b"".as_slice(),
        sentence,
        fault,
        answer,
    )
}

pub(crate) fn fault_json_alone_at_null<'a>(
    alloc: Global,
    status: u32,
    length: usize,
    object: &'a mut [u8],
    fault: &'a Answer,
    answer: &'a mut Answer,
) -> u32
    ensures { UnlessLong length ((object.new ≡ object.old) × ((answer.new ≡ answer.old) × (result ≡ 1)))
        (ReportsSentence status [] object.old object.new fault.now answer.new result) }
{
    if length > 0 {
        return 1;
    }
    reports::fault_json_alone(alloc, status, b"".as_slice(), object, fault, answer)
}

pub(crate) fn fault_json_at_null<'a>(
    alloc: Global,
    given: &'a Handle,
    status: u32,
    length: usize,
    object: &'a mut [u8],
    fault: &'a Answer,
    answer: &'a mut Answer,
) -> u32
    ensures { UnlessLong length ((object.new ≡ object.old) × ((answer.new ≡ answer.old) × (result ≡ 1)))
        (ReportsSentenceFor given.now status [] object.old object.new fault.now answer.new result) }
{
    if length > 0 {
        return 1;
    }
    reports::fault_json(alloc, given, status, b"".as_slice(), object, fault, answer)
}
