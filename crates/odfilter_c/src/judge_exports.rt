//! What C calls of judges that have a filter of their own, and for another owner of a handle, as the other exports are.
ghost use types.Logic.{sem};
ghost use base.Fml.{flft};
ghost use denote.RawPtr.{Testable};
ghost use Rattle.odfilter_c.specs.Loans.{Loan};
ghost use Rattle.odfilter_c.specs.JudgeExports.{borrowed_by_new_judge_of, left_by_new_judge_of};
ghost use Rattle.odfilter_c.specs.JudgeExports.{borrowed_by_judge_next, left_by_judge_next};
ghost use Rattle.odfilter_c.specs.JudgeExports.{borrowed_by_share, left_by_share};

use crate::c_types::Bytes;
use crate::null_calls;
use call_handles::{Answer, Handle, Owned};
use handle_calls::calls;
use std::alloc::Global;
use std::slice::from_raw_parts;

/// Makes a judge that has a filter of its own.
#[unsafe(no_mangle)]
pub unsafe extern "C" fn odfilter_new_judge_of(
    alloc: Global,
    filter: *const u8,
    judge: *mut Owned,
) -> u32
    ghost loan: { Loan }
    requires testable { (Testable filter) × (Testable judge) }
    requires* borrowed { sem 𝓛 (flft loan.lifetime loan.share) ∗ sem 𝓛 (borrowed_by_new_judge_of loan filter judge) }
    ensures* { sem 𝓛 (flft loan.lifetime loan.share) ∗ sem 𝓛 (left_by_new_judge_of loan filter judge result) }
{
    if filter.is_null() {
        return 1;
    }
    if judge.is_null() {
        return 1;
    }
    unsafe { calls::new_judge_of(alloc, &*(filter as *const Handle), &mut *judge) }
}

/// Judges a row by the judge's own filter.
#[unsafe(no_mangle)]
pub unsafe extern "C" fn odfilter_judge_next(judge: *mut u8, row: Bytes, answer: *mut Answer) -> u32
    ghost loan: { Loan }
    requires testable { (Testable judge) × (Testable row.at) × (Testable answer) }
    requires* borrowed { sem 𝓛 (flft loan.lifetime loan.share) ∗ sem 𝓛 (borrowed_by_judge_next loan judge row answer) }
    ensures* { sem 𝓛 (flft loan.lifetime loan.share) ∗ sem 𝓛 (left_by_judge_next loan judge row answer result) }
{
    if judge.is_null() {
        return 1;
    }
    if answer.is_null() {
        return 1;
    }
    if row.at.is_null() {
        unsafe {
            null_calls::judge_next_at_null(&mut *(judge as *mut Handle), row.length, &mut *answer)
        }
    } else {
        unsafe {
            calls::judge_next(
                &mut *(judge as *mut Handle),
                from_raw_parts(row.at, row.length),
                &mut *answer,
            )
        }
    }
}

/// Makes another handle of the same schema, type or filter.
#[unsafe(no_mangle)]
pub unsafe extern "C" fn odfilter_share(alloc: Global, handle: *const u8, made: *mut Owned) -> u32
    ghost loan: { Loan }
    requires testable { (Testable handle) × (Testable made) }
    requires* borrowed { sem 𝓛 (flft loan.lifetime loan.share) ∗ sem 𝓛 (borrowed_by_share loan handle made) }
    ensures* { sem 𝓛 (flft loan.lifetime loan.share) ∗ sem 𝓛 (left_by_share loan handle made result) }
{
    if handle.is_null() {
        return 1;
    }
    if made.is_null() {
        return 1;
    }
    unsafe { calls::share(alloc, &*(handle as *const Handle), &mut *made) }
}
