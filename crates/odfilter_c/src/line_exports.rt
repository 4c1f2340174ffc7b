//! What C calls to keep lines, as the other exports are.
ghost use types.Logic.{sem};
ghost use base.Fml.{flft};
ghost use denote.RawPtr.{Testable};
ghost use Rattle.odfilter_c.specs.Loans.{Loan};
ghost use Rattle.odfilter_c.specs.LineExports.{borrowed_by_filter_lines, left_by_filter_lines};

use crate::c_types::{Buffer, Bytes};
use crate::{null_buffer_calls, null_calls};
use call_handles::{Answer, Handle};
use handle_calls::calls;
use std::slice::{from_raw_parts, from_raw_parts_mut};

/// Judges rows, a line each, and writes those that are kept.
#[unsafe(no_mangle)]
pub unsafe extern "C" fn odfilter_filter_lines(
    filter: *const u8,
    judge: *mut u8,
    rows: Bytes,
    kept: Buffer,
    answer: *mut Answer,
) -> u32
    ghost loan: { Loan }
    requires testable { (Testable filter) × (Testable judge) × (Testable rows.at) × (Testable kept.at)
        × (Testable answer) }
    requires* borrowed { sem 𝓛 (flft loan.lifetime loan.share)
        ∗ sem 𝓛 (borrowed_by_filter_lines loan filter judge rows kept answer) }
    ensures* { sem 𝓛 (flft loan.lifetime loan.share)
        ∗ sem 𝓛 (left_by_filter_lines loan filter judge rows kept answer result) }
{
    if filter.is_null() {
        return 1;
    }
    if judge.is_null() {
        return 1;
    }
    if answer.is_null() {
        return 1;
    }
    if kept.at.is_null() {
        if rows.at.is_null() {
            unsafe {
                null_buffer_calls::filter_lines_to_null_at_null(
                    &*(filter as *const Handle),
                    &mut *(judge as *mut Handle),
                    rows.length,
                    kept.length,
                    &mut *answer,
                )
            }
        } else {
            unsafe {
                null_buffer_calls::filter_lines_to_null(
                    &*(filter as *const Handle),
                    &mut *(judge as *mut Handle),
                    from_raw_parts(rows.at, rows.length),
                    kept.length,
                    &mut *answer,
                )
            }
        }
    } else {
        if rows.at.is_null() {
            unsafe {
                null_calls::filter_lines_at_null(
                    &*(filter as *const Handle),
                    &mut *(judge as *mut Handle),
                    rows.length,
                    from_raw_parts_mut(kept.at, kept.length),
                    &mut *answer,
                )
            }
        } else {
            unsafe {
                calls::filter_lines(
                    &*(filter as *const Handle),
                    &mut *(judge as *mut Handle),
                    from_raw_parts(rows.at, rows.length),
                    from_raw_parts_mut(kept.at, kept.length),
                    &mut *answer,
                )
            }
        }
    }
}
