//! What C calls: each call tests its addresses, and asks the one of its name over references.
ghost use types.Logic.{sem};
ghost use base.Fml.{flft};
ghost use denote.RawPtr.{Testable};
ghost use Rattle.odfilter_c.specs.Loans.{Loan};
ghost use Rattle.odfilter_c.specs.Exports.{borrowed_by_read_schema, left_by_read_schema};
ghost use Rattle.odfilter_c.specs.Exports.{borrowed_by_find_type, left_by_find_type};
ghost use Rattle.odfilter_c.specs.Exports.{borrowed_by_check, left_by_check};
ghost use Rattle.odfilter_c.specs.Exports.{borrowed_by_check_query, left_by_check_query};
ghost use Rattle.odfilter_c.specs.Exports.{borrowed_by_needs_moment, left_by_needs_moment};
ghost use Rattle.odfilter_c.specs.Exports.{borrowed_by_new_judge, left_by_new_judge};
ghost use Rattle.odfilter_c.specs.Exports.{borrowed_by_set_moment, left_by_set_moment};
ghost use Rattle.odfilter_c.specs.Exports.{borrowed_by_set_bound, left_by_set_bound};
ghost use Rattle.odfilter_c.specs.Exports.{borrowed_by_judge, left_by_judge};
ghost use Rattle.odfilter_c.specs.Exports.{borrowed_by_path, left_by_path};
ghost use Rattle.odfilter_c.specs.Exports.{borrowed_by_free, left_by_free};
ghost use Rattle.odfilter_c.specs.Exports.{borrowed_by_version, left_by_version};
ghost use Rattle.odfilter_c.specs.Exports.{borrowed_by_status_name, left_by_status_name};
ghost use Rattle.odfilter_c.specs.Exports.{borrowed_by_fault_name, left_by_fault_name};

use crate::c_types::{Buffer, Bytes};
use crate::{length_calls, null_buffer_calls, null_calls};
use call_handles::{Answer, Handle, Owned};
use handle_calls::calls;
use report_calls::calls as reports;
use std::alloc::Global;
use std::slice::{from_raw_parts, from_raw_parts_mut};

/// Reads a schema.
#[unsafe(no_mangle)]
pub unsafe extern "C" fn odfilter_read_schema(
    alloc: Global,
    document: Bytes,
    names: Buffer,
    schema: *mut Owned,
    answer: *mut Answer,
) -> u32
    ghost loan: { Loan }
    requires testable { (Testable document.at) × (Testable names.at) × (Testable schema) × (Testable answer) }
    requires* borrowed { sem 𝓛 (flft loan.lifetime loan.share)
        ∗ sem 𝓛 (borrowed_by_read_schema loan document names schema answer) }
    ensures* { sem 𝓛 (flft loan.lifetime loan.share)
        ∗ sem 𝓛 (left_by_read_schema loan document names schema answer result) }
{
    if schema.is_null() {
        return 1;
    }
    if answer.is_null() {
        return 1;
    }
    if names.at.is_null() {
        if document.at.is_null() {
            unsafe {
                null_buffer_calls::read_schema_to_null_at_null(
                    alloc,
                    document.length,
                    names.length,
                    &mut *schema,
                    &mut *answer,
                )
            }
        } else {
            unsafe {
                null_buffer_calls::read_schema_to_null(
                    alloc,
                    from_raw_parts(document.at, document.length),
                    names.length,
                    &mut *schema,
                    &mut *answer,
                )
            }
        }
    } else {
        if document.at.is_null() {
            unsafe {
                null_calls::read_schema_at_null(
                    alloc,
                    document.length,
                    from_raw_parts_mut(names.at, names.length),
                    &mut *schema,
                    &mut *answer,
                )
            }
        } else {
            unsafe {
                calls::read_schema(
                    alloc,
                    from_raw_parts(document.at, document.length),
                    from_raw_parts_mut(names.at, names.length),
                    &mut *schema,
                    &mut *answer,
                )
            }
        }
    }
}

/// Finds an entity type.
#[unsafe(no_mangle)]
pub unsafe extern "C" fn odfilter_find_type(
    alloc: Global,
    schema: *const u8,
    name: Bytes,
    made: *mut Owned,
) -> u32
    ghost loan: { Loan }
    requires testable { (Testable schema) × (Testable name.at) × (Testable made) }
    requires* borrowed { sem 𝓛 (flft loan.lifetime loan.share) ∗ sem 𝓛 (borrowed_by_find_type loan schema name made) }
    ensures* { sem 𝓛 (flft loan.lifetime loan.share) ∗ sem 𝓛 (left_by_find_type loan schema name made result) }
{
    if schema.is_null() {
        return 1;
    }
    if made.is_null() {
        return 1;
    }
    if name.at.is_null() {
        unsafe {
            null_calls::find_type_at_null(
                alloc,
                &*(schema as *const Handle),
                name.length,
                &mut *made,
            )
        }
    } else {
        unsafe {
            calls::find_type(
                alloc,
                &*(schema as *const Handle),
                from_raw_parts(name.at, name.length),
                &mut *made,
            )
        }
    }
}

/// Checks a filter.
#[unsafe(no_mangle)]
pub unsafe extern "C" fn odfilter_check(
    alloc: Global,
    given: *const u8,
    text: Bytes,
    made: *mut Owned,
    answer: *mut Answer,
) -> u32
    ghost loan: { Loan }
    requires testable { (Testable given) × (Testable text.at) × (Testable made) × (Testable answer) }
    requires* borrowed { sem 𝓛 (flft loan.lifetime loan.share) ∗ sem 𝓛 (borrowed_by_check loan given text made answer) }
    ensures* { sem 𝓛 (flft loan.lifetime loan.share) ∗ sem 𝓛 (left_by_check loan given text made answer result) }
{
    if given.is_null() {
        return 1;
    }
    if made.is_null() {
        return 1;
    }
    if answer.is_null() {
        return 1;
    }
    if text.at.is_null() {
        unsafe {
            null_calls::check_at_null(
                alloc,
                &*(given as *const Handle),
                text.length,
                &mut *made,
                &mut *answer,
            )
        }
    } else {
        unsafe {
            calls::check(
                alloc,
                &*(given as *const Handle),
                from_raw_parts(text.at, text.length),
                &mut *made,
                &mut *answer,
            )
        }
    }
}

/// Checks the filter of a query string.
#[unsafe(no_mangle)]
pub unsafe extern "C" fn odfilter_check_query(
    alloc: Global,
    given: *const u8,
    query: Bytes,
    made: *mut Owned,
    answer: *mut Answer,
) -> u32
    ghost loan: { Loan }
    requires testable { (Testable given) × (Testable query.at) × (Testable made) × (Testable answer) }
    requires* borrowed { sem 𝓛 (flft loan.lifetime loan.share)
        ∗ sem 𝓛 (borrowed_by_check_query loan given query made answer) }
    ensures* { sem 𝓛 (flft loan.lifetime loan.share) ∗ sem 𝓛 (left_by_check_query loan given query made answer result) }
{
    if given.is_null() {
        return 1;
    }
    if made.is_null() {
        return 1;
    }
    if answer.is_null() {
        return 1;
    }
    if query.at.is_null() {
        unsafe {
            null_calls::check_query_at_null(
                alloc,
                &*(given as *const Handle),
                query.length,
                &mut *made,
                &mut *answer,
            )
        }
    } else {
        unsafe {
            calls::check_query(
                alloc,
                &*(given as *const Handle),
                from_raw_parts(query.at, query.length),
                &mut *made,
                &mut *answer,
            )
        }
    }
}

/// Reports whether a filter needs a moment.
#[unsafe(no_mangle)]
pub unsafe extern "C" fn odfilter_needs_moment(filter: *const u8, answer: *mut Answer) -> u32
    ghost loan: { Loan }
    requires testable { (Testable filter) × (Testable answer) }
    requires* borrowed { sem 𝓛 (flft loan.lifetime loan.share) ∗ sem 𝓛 (borrowed_by_needs_moment loan filter answer) }
    ensures* { sem 𝓛 (flft loan.lifetime loan.share) ∗ sem 𝓛 (left_by_needs_moment loan filter answer result) }
{
    if filter.is_null() {
        return 1;
    }
    if answer.is_null() {
        return 1;
    }
    unsafe { calls::needs_moment(&*(filter as *const Handle), &mut *answer) }
}

/// Makes a judge.
#[unsafe(no_mangle)]
pub unsafe extern "C" fn odfilter_new_judge(alloc: Global, judge: *mut Owned) -> u32
    ghost loan: { Loan }
    requires testable { (Testable judge) }
    requires* borrowed { sem 𝓛 (flft loan.lifetime loan.share) ∗ sem 𝓛 (borrowed_by_new_judge loan judge) }
    ensures* { sem 𝓛 (flft loan.lifetime loan.share) ∗ sem 𝓛 (left_by_new_judge loan judge result) }
{
    if judge.is_null() {
        return 1;
    }
    unsafe { calls::new_judge(alloc, &mut *judge) }
}

/// Sets a judge's moment.
#[unsafe(no_mangle)]
pub unsafe extern "C" fn odfilter_set_moment(judge: *mut u8, moment: Bytes) -> u32
    ghost loan: { Loan }
    requires testable { (Testable judge) × (Testable moment.at) }
    requires* borrowed { sem 𝓛 (flft loan.lifetime loan.share) ∗ sem 𝓛 (borrowed_by_set_moment loan judge moment) }
    ensures* { sem 𝓛 (flft loan.lifetime loan.share) ∗ sem 𝓛 (left_by_set_moment loan judge moment result) }
{
    if judge.is_null() {
        return 1;
    }
    if moment.at.is_null() {
        unsafe { null_calls::set_moment_at_null(&mut *(judge as *mut Handle), moment.length) }
    } else {
        unsafe {
            calls::set_moment(
                &mut *(judge as *mut Handle),
                from_raw_parts(moment.at, moment.length),
            )
        }
    }
}

/// Bounds what a filter may cost on a row.
#[unsafe(no_mangle)]
pub unsafe extern "C" fn odfilter_set_bound(judge: *mut u8, most: u64) -> u32
    ghost loan: { Loan }
    requires testable { (Testable judge) }
    requires* borrowed { sem 𝓛 (flft loan.lifetime loan.share) ∗ sem 𝓛 (borrowed_by_set_bound loan judge) }
    ensures* { sem 𝓛 (flft loan.lifetime loan.share) ∗ sem 𝓛 (left_by_set_bound loan judge most result) }
{
    if judge.is_null() {
        return 1;
    }
    unsafe { calls::set_bound(&mut *(judge as *mut Handle), most) }
}

/// Judges a row.
#[unsafe(no_mangle)]
pub unsafe extern "C" fn odfilter_judge(
    filter: *const u8,
    judge: *mut u8,
    row: Bytes,
    answer: *mut Answer,
) -> u32
    ghost loan: { Loan }
    requires testable { (Testable filter) × (Testable judge) × (Testable row.at) × (Testable answer) }
    requires* borrowed { sem 𝓛 (flft loan.lifetime loan.share)
        ∗ sem 𝓛 (borrowed_by_judge loan filter judge row answer) }
    ensures* { sem 𝓛 (flft loan.lifetime loan.share) ∗ sem 𝓛 (left_by_judge loan filter judge row answer result) }
{
    if filter.is_null() {
        return 1;
    }
    if judge.is_null() {
        return 1;
    }
    if answer.is_null() {
        return 1;
    }
    if row.at.is_null() {
        unsafe {
            null_calls::judge_at_null(
                &*(filter as *const Handle),
                &mut *(judge as *mut Handle),
                row.length,
                &mut *answer,
            )
        }
    } else {
        unsafe {
            calls::judge(
                &*(filter as *const Handle),
                &mut *(judge as *mut Handle),
                from_raw_parts(row.at, row.length),
                &mut *answer,
            )
        }
    }
}

/// Writes the path of the fault that a judge stores.
#[unsafe(no_mangle)]
pub unsafe extern "C" fn odfilter_path(judge: *const u8, path: Buffer, answer: *mut Answer) -> u32
    ghost loan: { Loan }
    requires testable { (Testable judge) × (Testable path.at) × (Testable answer) }
    requires* borrowed { sem 𝓛 (flft loan.lifetime loan.share) ∗ sem 𝓛 (borrowed_by_path loan judge path answer) }
    ensures* { sem 𝓛 (flft loan.lifetime loan.share) ∗ sem 𝓛 (left_by_path loan judge path answer result) }
{
    if judge.is_null() {
        return 1;
    }
    if answer.is_null() {
        return 1;
    }
    if path.at.is_null() {
        unsafe { length_calls::path_to_null(&*(judge as *const Handle), path.length, &mut *answer) }
    } else {
        unsafe {
            calls::path(
                &*(judge as *const Handle),
                from_raw_parts_mut(path.at, path.length),
                &mut *answer,
            )
        }
    }
}

/// Frees a handle.
#[unsafe(no_mangle)]
pub unsafe extern "C" fn odfilter_free(alloc: Global, handle: *mut Owned) -> u32
    ghost loan: { Loan }
    requires testable { (Testable handle) }
    requires* borrowed { sem 𝓛 (flft loan.lifetime loan.share) ∗ sem 𝓛 (borrowed_by_free loan handle) }
    ensures* { sem 𝓛 (flft loan.lifetime loan.share) ∗ sem 𝓛 (left_by_free loan handle result) }
{
    if handle.is_null() {
        return 1;
    }
    unsafe { calls::free(alloc, &mut *handle) }
}

/// Writes the version.
#[unsafe(no_mangle)]
pub unsafe extern "C" fn odfilter_version(text: Buffer, answer: *mut Answer) -> u32
    ghost loan: { Loan }
    requires testable { (Testable text.at) × (Testable answer) }
    requires* borrowed { sem 𝓛 (flft loan.lifetime loan.share) ∗ sem 𝓛 (borrowed_by_version loan text answer) }
    ensures* { sem 𝓛 (flft loan.lifetime loan.share) ∗ sem 𝓛 (left_by_version loan text answer result) }
{
    if answer.is_null() {
        return 1;
    }
    if text.at.is_null() {
        unsafe { length_calls::version_to_null(text.length, &mut *answer) }
    } else {
        unsafe { reports::version(from_raw_parts_mut(text.at, text.length), &mut *answer) }
    }
}

/// Writes the name of a status.
#[unsafe(no_mangle)]
pub unsafe extern "C" fn odfilter_status_name(status: u32, text: Buffer, answer: *mut Answer) -> u32
    ghost loan: { Loan }
    requires testable { (Testable text.at) × (Testable answer) }
    requires* borrowed { sem 𝓛 (flft loan.lifetime loan.share) ∗ sem 𝓛 (borrowed_by_status_name loan text answer) }
    ensures* { sem 𝓛 (flft loan.lifetime loan.share) ∗ sem 𝓛 (left_by_status_name loan status text answer result) }
{
    if answer.is_null() {
        return 1;
    }
    if text.at.is_null() {
        unsafe { length_calls::status_name_to_null(status, text.length, &mut *answer) }
    } else {
        unsafe {
            reports::status_name(
                status,
                from_raw_parts_mut(text.at, text.length),
                &mut *answer,
            )
        }
    }
}

/// Writes the name of a fault.
#[unsafe(no_mangle)]
pub unsafe extern "C" fn odfilter_fault_name(
    status: u32,
    fault: u32,
    text: Buffer,
    answer: *mut Answer,
) -> u32
    ghost loan: { Loan }
    requires testable { (Testable text.at) × (Testable answer) }
    requires* borrowed { sem 𝓛 (flft loan.lifetime loan.share) ∗ sem 𝓛 (borrowed_by_fault_name loan text answer) }
    ensures* { sem 𝓛 (flft loan.lifetime loan.share) ∗ sem 𝓛 (left_by_fault_name loan status fault text answer result) }
{
    if answer.is_null() {
        return 1;
    }
    if text.at.is_null() {
        unsafe { length_calls::fault_name_to_null(status, fault, text.length, &mut *answer) }
    } else {
        unsafe {
            reports::fault_name(
                status,
                fault,
                from_raw_parts_mut(text.at, text.length),
                &mut *answer,
            )
        }
    }
}
