//! What C calls of the types of a schema, as the other exports are.
ghost use types.Logic.{sem};
ghost use base.Fml.{flft};
ghost use denote.RawPtr.{Testable};
ghost use Rattle.odfilter_c.specs.Loans.{Loan};
ghost use Rattle.odfilter_c.specs.TypeExports.{borrowed_by_types, left_by_types};

use crate::c_types::Buffer;
use crate::length_calls;
use call_handles::{Answer, Handle};
use report_calls::calls as reports;
use std::alloc::Global;
use std::slice::from_raw_parts_mut;

/// Writes the entity and complex types of a schema, or one type, in lines.
#[unsafe(no_mangle)]
pub unsafe extern "C" fn odfilter_types(
    alloc: Global,
    given: *const u8,
    text: Buffer,
    answer: *mut Answer,
) -> u32
    ghost loan: { Loan }
    requires testable { (Testable given) × (Testable text.at) × (Testable answer) }
    requires* borrowed { sem 𝓛 (flft loan.lifetime loan.share) ∗ sem 𝓛 (borrowed_by_types loan given text answer) }
    ensures* { sem 𝓛 (flft loan.lifetime loan.share) ∗ sem 𝓛 (left_by_types loan given text answer result) }
{
    if given.is_null() {
        return 1;
    }
    if answer.is_null() {
        return 1;
    }
    if text.at.is_null() {
        unsafe {
            length_calls::types_to_null(
                alloc,
                &*(given as *const Handle),
                text.length,
                &mut *answer,
            )
        }
    } else {
        unsafe {
            reports::types(
                alloc,
                &*(given as *const Handle),
                from_raw_parts_mut(text.at, text.length),
                &mut *answer,
            )
        }
    }
}
