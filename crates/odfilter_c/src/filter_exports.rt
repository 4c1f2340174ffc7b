//! What C calls of a filter, and of the one in a whole query; each is as the other exports are.
ghost use types.Logic.{sem};
ghost use base.Fml.{flft};
ghost use denote.RawPtr.{Testable};
ghost use Rattle.odfilter_c.specs.Loans.{Loan};
ghost use Rattle.odfilter_c.specs.FilterExports.{borrowed_by_check_url, left_by_check_url};
ghost use Rattle.odfilter_c.specs.FilterExports.{borrowed_by_canonical, left_by_canonical};
ghost use Rattle.odfilter_c.specs.FilterExports.{borrowed_by_explain, left_by_explain};
ghost use Rattle.odfilter_c.specs.FilterExports.{borrowed_by_node_count, left_by_node_count};
ghost use Rattle.odfilter_c.specs.FilterExports.{borrowed_by_lambda_depth, left_by_lambda_depth};
ghost use Rattle.odfilter_c.specs.FilterExports.{borrowed_by_property_paths, left_by_property_paths};
ghost use Rattle.odfilter_c.specs.FilterExports.{borrowed_by_fault_text, left_by_fault_text};
ghost use Rattle.odfilter_c.specs.FilterExports.{borrowed_by_sql, left_by_sql};

use crate::c_types::{Buffer, Bytes};
use crate::{length_calls, null_buffer_calls, null_calls};
use call_handles::{Answer, Handle, Owned};
use handle_calls::calls;
use report_calls::calls as reports;
use std::alloc::Global;
use std::slice::{from_raw_parts, from_raw_parts_mut};

/// Checks the filter of a whole query.
#[unsafe(no_mangle)]
pub unsafe extern "C" fn odfilter_check_url(
    alloc: Global,
    given: *const u8,
    query: Bytes,
    text: Buffer,
    made: *mut Owned,
    answer: *mut Answer,
) -> u32
    ghost loan: { Loan }
    requires testable { (Testable given) × (Testable query.at) × (Testable text.at) × (Testable made)
        × (Testable answer) }
    requires* borrowed { sem 𝓛 (flft loan.lifetime loan.share)
        ∗ sem 𝓛 (borrowed_by_check_url loan given query text made answer) }
    ensures* { sem 𝓛 (flft loan.lifetime loan.share)
        ∗ sem 𝓛 (left_by_check_url loan given query text made answer result) }
{
    if given.is_null() {
        return 1;
    }
    if made.is_null() {
        return 1;
    }
    if answer.is_null() {
        return 1;
    }
    if text.at.is_null() {
        if query.at.is_null() {
            unsafe {
                null_buffer_calls::check_url_to_null_at_null(
                    alloc,
                    &*(given as *const Handle),
                    query.length,
                    text.length,
                    &mut *made,
                    &mut *answer,
                )
            }
        } else {
            unsafe {
                null_buffer_calls::check_url_to_null(
                    alloc,
                    &*(given as *const Handle),
                    from_raw_parts(query.at, query.length),
                    text.length,
                    &mut *made,
                    &mut *answer,
                )
            }
        }
    } else {
        if query.at.is_null() {
            unsafe {
                null_calls::check_url_at_null(
                    alloc,
                    &*(given as *const Handle),
                    query.length,
                    from_raw_parts_mut(text.at, text.length),
                    &mut *made,
                    &mut *answer,
                )
            }
        } else {
            unsafe {
                calls::check_url(
                    alloc,
                    &*(given as *const Handle),
                    from_raw_parts(query.at, query.length),
                    from_raw_parts_mut(text.at, text.length),
                    &mut *made,
                    &mut *answer,
                )
            }
        }
    }
}

/// Writes a filter as conditions of SQL.
#[unsafe(no_mangle)]
pub unsafe extern "C" fn odfilter_sql(
    alloc: Global,
    filter: *const u8,
    form: u32,
    how: Bytes,
    text: Buffer,
    answer: *mut Answer,
) -> u32
    ghost loan: { Loan }
    requires testable { (Testable filter) × (Testable how.at) × (Testable text.at) × (Testable answer) }
    requires* borrowed { sem 𝓛 (flft loan.lifetime loan.share) ∗ sem 𝓛 (borrowed_by_sql loan filter how text answer) }
    ensures* { sem 𝓛 (flft loan.lifetime loan.share)
        ∗ sem 𝓛 (left_by_sql loan filter form how text answer result) }
{
    if filter.is_null() {
        return 1;
    }
    if answer.is_null() {
        return 1;
    }
    if text.at.is_null() {
        if how.at.is_null() {
            unsafe {
                length_calls::sql_to_null_at_null(
                    alloc,
                    &*(filter as *const Handle),
                    form,
                    how.length,
                    text.length,
                    &mut *answer,
                )
            }
        } else {
            unsafe {
                length_calls::sql_to_null(
                    alloc,
                    &*(filter as *const Handle),
                    form,
                    from_raw_parts(how.at, how.length),
                    text.length,
                    &mut *answer,
                )
            }
        }
    } else {
        if how.at.is_null() {
            unsafe {
                null_calls::sql_at_null(
                    alloc,
                    &*(filter as *const Handle),
                    form,
                    how.length,
                    from_raw_parts_mut(text.at, text.length),
                    &mut *answer,
                )
            }
        } else {
            unsafe {
                reports::sql(
                    alloc,
                    &*(filter as *const Handle),
                    form,
                    from_raw_parts(how.at, how.length),
                    from_raw_parts_mut(text.at, text.length),
                    &mut *answer,
                )
            }
        }
    }
}

/// Writes a filter's canonical text.
#[unsafe(no_mangle)]
pub unsafe extern "C" fn odfilter_canonical(
    alloc: Global,
    filter: *const u8,
    text: Buffer,
    answer: *mut Answer,
) -> u32
    ghost loan: { Loan }
    requires testable { (Testable filter) × (Testable text.at) × (Testable answer) }
    requires* borrowed { sem 𝓛 (flft loan.lifetime loan.share) ∗ sem 𝓛 (borrowed_by_canonical loan filter text answer) }
    ensures* { sem 𝓛 (flft loan.lifetime loan.share) ∗ sem 𝓛 (left_by_canonical loan filter text answer result) }
{
    if filter.is_null() {
        return 1;
    }
    if answer.is_null() {
        return 1;
    }
    if text.at.is_null() {
        unsafe {
            length_calls::canonical_to_null(
                alloc,
                &*(filter as *const Handle),
                text.length,
                &mut *answer,
            )
        }
    } else {
        unsafe {
            calls::canonical(
                alloc,
                &*(filter as *const Handle),
                from_raw_parts_mut(text.at, text.length),
                &mut *answer,
            )
        }
    }
}

/// Writes what each node of a filter is.
#[unsafe(no_mangle)]
pub unsafe extern "C" fn odfilter_explain(
    alloc: Global,
    filter: *const u8,
    text: Buffer,
    answer: *mut Answer,
) -> u32
    ghost loan: { Loan }
    requires testable { (Testable filter) × (Testable text.at) × (Testable answer) }
    requires* borrowed { sem 𝓛 (flft loan.lifetime loan.share) ∗ sem 𝓛 (borrowed_by_explain loan filter text answer) }
    ensures* { sem 𝓛 (flft loan.lifetime loan.share) ∗ sem 𝓛 (left_by_explain loan filter text answer result) }
{
    if filter.is_null() {
        return 1;
    }
    if answer.is_null() {
        return 1;
    }
    if text.at.is_null() {
        unsafe {
            length_calls::explain_to_null(
                alloc,
                &*(filter as *const Handle),
                text.length,
                &mut *answer,
            )
        }
    } else {
        unsafe {
            calls::explain(
                alloc,
                &*(filter as *const Handle),
                from_raw_parts_mut(text.at, text.length),
                &mut *answer,
            )
        }
    }
}

/// Reports how many nodes a filter has.
#[unsafe(no_mangle)]
pub unsafe extern "C" fn odfilter_node_count(filter: *const u8, answer: *mut Answer) -> u32
    ghost loan: { Loan }
    requires testable { (Testable filter) × (Testable answer) }
    requires* borrowed { sem 𝓛 (flft loan.lifetime loan.share) ∗ sem 𝓛 (borrowed_by_node_count loan filter answer) }
    ensures* { sem 𝓛 (flft loan.lifetime loan.share) ∗ sem 𝓛 (left_by_node_count loan filter answer result) }
{
    if filter.is_null() {
        return 1;
    }
    if answer.is_null() {
        return 1;
    }
    unsafe { calls::node_count(&*(filter as *const Handle), &mut *answer) }
}

/// Reports how many lambda operators of a filter stand in one another.
#[unsafe(no_mangle)]
pub unsafe extern "C" fn odfilter_lambda_depth(filter: *const u8, answer: *mut Answer) -> u32
    ghost loan: { Loan }
    requires testable { (Testable filter) × (Testable answer) }
    requires* borrowed { sem 𝓛 (flft loan.lifetime loan.share) ∗ sem 𝓛 (borrowed_by_lambda_depth loan filter answer) }
    ensures* { sem 𝓛 (flft loan.lifetime loan.share) ∗ sem 𝓛 (left_by_lambda_depth loan filter answer result) }
{
    if filter.is_null() {
        return 1;
    }
    if answer.is_null() {
        return 1;
    }
    unsafe { calls::lambda_depth(&*(filter as *const Handle), &mut *answer) }
}

/// Writes the paths of the properties that a filter reads.
#[unsafe(no_mangle)]
pub unsafe extern "C" fn odfilter_property_paths(
    alloc: Global,
    filter: *const u8,
    paths: Buffer,
    answer: *mut Answer,
) -> u32
    ghost loan: { Loan }
    requires testable { (Testable filter) × (Testable paths.at) × (Testable answer) }
    requires* borrowed { sem 𝓛 (flft loan.lifetime loan.share)
        ∗ sem 𝓛 (borrowed_by_property_paths loan filter paths answer) }
    ensures* { sem 𝓛 (flft loan.lifetime loan.share) ∗ sem 𝓛 (left_by_property_paths loan filter paths answer result) }
{
    if filter.is_null() {
        return 1;
    }
    if answer.is_null() {
        return 1;
    }
    if paths.at.is_null() {
        unsafe {
            length_calls::property_paths_to_null(
                alloc,
                &*(filter as *const Handle),
                paths.length,
                &mut *answer,
            )
        }
    } else {
        unsafe {
            calls::property_paths(
                alloc,
                &*(filter as *const Handle),
                from_raw_parts_mut(paths.at, paths.length),
                &mut *answer,
            )
        }
    }
}

/// Writes a sentence about a fault.
#[unsafe(no_mangle)]
pub unsafe extern "C" fn odfilter_fault_text(
    alloc: Global,
    given: *const u8,
    status: u32,
    text: Bytes,
    sentence: Buffer,
    fault: *const Answer,
    answer: *mut Answer,
) -> u32
    ghost loan: { Loan }
    requires testable { (Testable given) × (Testable text.at) × (Testable sentence.at) × (Testable fault)
        × (Testable answer) }
    requires* borrowed { sem 𝓛 (flft loan.lifetime loan.share)
        ∗ sem 𝓛 (borrowed_by_fault_text loan given text sentence fault answer) }
    ensures* { sem 𝓛 (flft loan.lifetime loan.share)
        ∗ sem 𝓛 (left_by_fault_text loan given status text sentence fault answer result) }
{
    if fault.is_null() {
        return 1;
    }
    if answer.is_null() {
        return 1;
    }
    if given.is_null() {
        if sentence.at.is_null() {
            if text.at.is_null() {
                unsafe {
                    length_calls::fault_text_alone_to_null_at_null(
                        alloc,
                        status,
                        text.length,
                        sentence.length,
                        &*fault,
                        &mut *answer,
                    )
                }
            } else {
                unsafe {
                    length_calls::fault_text_alone_to_null(
                        alloc,
                        status,
                        from_raw_parts(text.at, text.length),
                        sentence.length,
                        &*fault,
                        &mut *answer,
                    )
                }
            }
        } else {
            if text.at.is_null() {
                unsafe {
                    null_calls::fault_text_alone_at_null(
                        alloc,
                        status,
                        text.length,
                        from_raw_parts_mut(sentence.at, sentence.length),
                        &*fault,
                        &mut *answer,
                    )
                }
            } else {
                unsafe {
                    reports::fault_text_alone(
                        alloc,
                        status,
                        from_raw_parts(text.at, text.length),
                        from_raw_parts_mut(sentence.at, sentence.length),
                        &*fault,
                        &mut *answer,
                    )
                }
            }
        }
    } else {
        if sentence.at.is_null() {
            if text.at.is_null() {
                unsafe {
                    length_calls::fault_text_to_null_at_null(
                        alloc,
                        &*(given as *const Handle),
                        status,
                        text.length,
                        sentence.length,
                        &*fault,
                        &mut *answer,
                    )
                }
            } else {
                unsafe {
                    length_calls::fault_text_to_null(
                        alloc,
                        &*(given as *const Handle),
                        status,
                        from_raw_parts(text.at, text.length),
                        sentence.length,
                        &*fault,
                        &mut *answer,
                    )
                }
            }
        } else {
            if text.at.is_null() {
                unsafe {
                    null_calls::fault_text_at_null(
                        alloc,
                        &*(given as *const Handle),
                        status,
                        text.length,
                        from_raw_parts_mut(sentence.at, sentence.length),
                        &*fault,
                        &mut *answer,
                    )
                }
            } else {
                unsafe {
                    reports::fault_text(
                        alloc,
                        &*(given as *const Handle),
                        status,
                        from_raw_parts(text.at, text.length),
                        from_raw_parts_mut(sentence.at, sentence.length),
                        &*fault,
                        &mut *answer,
                    )
                }
            }
        }
    }
}
