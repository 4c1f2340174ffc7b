//! What C calls of conditions of SQL as a handle, as the other exports are.
ghost use types.Logic.{sem};
ghost use base.Fml.{flft};
ghost use denote.RawPtr.{Testable};
ghost use Rattle.odfilter_c.specs.Loans.{Loan};
ghost use Rattle.odfilter_c.specs.SqlExports.{borrowed_by_new_sql, left_by_new_sql};
ghost use Rattle.odfilter_c.specs.SqlExports.{borrowed_by_sql_text, left_by_sql_text};
ghost use Rattle.odfilter_c.specs.SqlExports.{borrowed_by_sql_value, left_by_sql_value};

use crate::c_types::{Buffer, Bytes};
use crate::{length_calls, null_calls};
use call_handles::{Answer, Handle, Owned};
use report_calls::calls as reports;
use std::alloc::Global;
use std::slice::{from_raw_parts, from_raw_parts_mut};

/// Makes conditions of a filter in SQL.
#[unsafe(no_mangle)]
pub unsafe extern "C" fn odfilter_new_sql(
    alloc: Global,
    filter: *const u8,
    form: u32,
    how: Bytes,
    conditions: *mut Owned,
    answer: *mut Answer,
) -> u32
    ghost loan: { Loan }
    requires testable { (Testable filter) × (Testable how.at) × (Testable conditions) × (Testable answer) }
    requires* borrowed { sem 𝓛 (flft loan.lifetime loan.share)
        ∗ sem 𝓛 (borrowed_by_new_sql loan filter how conditions answer) }
    ensures* { sem 𝓛 (flft loan.lifetime loan.share)
        ∗ sem 𝓛 (left_by_new_sql loan filter form how conditions answer result) }
{
    if filter.is_null() {
        return 1;
    }
    if conditions.is_null() {
        return 1;
    }
    if answer.is_null() {
        return 1;
    }
    if how.at.is_null() {
        unsafe {
            null_calls::new_sql_at_null(
                alloc,
                &*(filter as *const Handle),
                form,
                how.length,
                &mut *conditions,
                &mut *answer,
            )
        }
    } else {
        unsafe {
            reports::new_sql(
                alloc,
                &*(filter as *const Handle),
                form,
                from_raw_parts(how.at, how.length),
                &mut *conditions,
                &mut *answer,
            )
        }
    }
}

/// Writes the text of a statement of conditions.
#[unsafe(no_mangle)]
pub unsafe extern "C" fn odfilter_sql_text(
    conditions: *const u8,
    which: u32,
    text: Buffer,
    answer: *mut Answer,
) -> u32
    ghost loan: { Loan }
    requires testable { (Testable conditions) × (Testable text.at) × (Testable answer) }
    requires* borrowed { sem 𝓛 (flft loan.lifetime loan.share)
        ∗ sem 𝓛 (borrowed_by_sql_text loan conditions text answer) }
    ensures* { sem 𝓛 (flft loan.lifetime loan.share)
        ∗ sem 𝓛 (left_by_sql_text loan conditions which text answer result) }
{
    if conditions.is_null() {
        return 1;
    }
    if answer.is_null() {
        return 1;
    }
    if text.at.is_null() {
        unsafe {
            length_calls::sql_text_to_null(
                &*(conditions as *const Handle),
                which,
                text.length,
                &mut *answer,
            )
        }
    } else {
        unsafe {
            reports::sql_text(
                &*(conditions as *const Handle),
                which,
                from_raw_parts_mut(text.at, text.length),
                &mut *answer,
            )
        }
    }
}

/// Reports the value of a parameter of a statement.
#[unsafe(no_mangle)]
pub unsafe extern "C" fn odfilter_sql_value(
    alloc: Global,
    conditions: *const u8,
    which: u32,
    index: u32,
    text: Buffer,
    answer: *mut Answer,
) -> u32
    ghost loan: { Loan }
    requires testable { (Testable conditions) × (Testable text.at) × (Testable answer) }
    requires* borrowed { sem 𝓛 (flft loan.lifetime loan.share)
        ∗ sem 𝓛 (borrowed_by_sql_value loan conditions text answer) }
    ensures* { sem 𝓛 (flft loan.lifetime loan.share)
        ∗ sem 𝓛 (left_by_sql_value loan conditions which index text answer result) }
{
    if conditions.is_null() {
        return 1;
    }
    if answer.is_null() {
        return 1;
    }
    if text.at.is_null() {
        unsafe {
            length_calls::sql_value_to_null(
                alloc,
                &*(conditions as *const Handle),
                which,
                index,
                text.length,
                &mut *answer,
            )
        }
    } else {
        unsafe {
            reports::sql_value(
                alloc,
                &*(conditions as *const Handle),
                which,
                index,
                from_raw_parts_mut(text.at, text.length),
                &mut *answer,
            )
        }
    }
}
