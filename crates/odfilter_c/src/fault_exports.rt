//! What C calls of a fault whole, as the other exports are.
ghost use types.Logic.{sem};
ghost use base.Fml.{flft};
ghost use denote.RawPtr.{Testable};
ghost use Rattle.odfilter_c.specs.Loans.{Loan};
ghost use Rattle.odfilter_c.specs.FaultExports.{borrowed_by_fault_json, left_by_fault_json};

use crate::c_types::{Buffer, Bytes};
use crate::{length_calls, null_calls};
use call_handles::{Answer, Handle};
use report_calls::calls as reports;
use std::alloc::Global;
use std::slice::{from_raw_parts, from_raw_parts_mut};

/// Writes a fault whole, as a JSON object.
#[unsafe(no_mangle)]
pub unsafe extern "C" fn odfilter_fault_json(
    alloc: Global,
    given: *const u8,
    status: u32,
    text: Bytes,
    json: Buffer,
    fault: *const Answer,
    answer: *mut Answer,
) -> u32
    ghost loan: { Loan }
    requires testable { (Testable given) × (Testable text.at) × (Testable json.at) × (Testable fault)
        × (Testable answer) }
    requires* borrowed { sem 𝓛 (flft loan.lifetime loan.share)
        ∗ sem 𝓛 (borrowed_by_fault_json loan given text json fault answer) }
    ensures* { sem 𝓛 (flft loan.lifetime loan.share)
        ∗ sem 𝓛 (left_by_fault_json loan given status text json fault answer result) }
{
    if fault.is_null() {
        return 1;
    }
    if answer.is_null() {
        return 1;
    }
    if given.is_null() {
        if json.at.is_null() {
            if text.at.is_null() {
                unsafe {
                    length_calls::fault_json_alone_to_null_at_null(
                        alloc,
                        status,
                        text.length,
                        json.length,
                        &*fault,
                        &mut *answer,
                    )
                }
            } else {
                unsafe {
                    length_calls::fault_json_alone_to_null(
                        alloc,
                        status,
                        from_raw_parts(text.at, text.length),
                        json.length,
                        &*fault,
                        &mut *answer,
                    )
                }
            }
        } else {
            if text.at.is_null() {
                unsafe {
                    null_calls::fault_json_alone_at_null(
                        alloc,
                        status,
                        text.length,
                        from_raw_parts_mut(json.at, json.length),
                        &*fault,
                        &mut *answer,
                    )
                }
            } else {
                unsafe {
                    reports::fault_json_alone(
                        alloc,
                        status,
                        from_raw_parts(text.at, text.length),
                        from_raw_parts_mut(json.at, json.length),
                        &*fault,
                        &mut *answer,
                    )
                }
            }
        }
    } else {
        if json.at.is_null() {
            if text.at.is_null() {
                unsafe {
                    length_calls::fault_json_to_null_at_null(
                        alloc,
                        &*(given as *const Handle),
                        status,
                        text.length,
                        json.length,
                        &*fault,
                        &mut *answer,
                    )
                }
            } else {
                unsafe {
                    length_calls::fault_json_to_null(
                        alloc,
                        &*(given as *const Handle),
                        status,
                        from_raw_parts(text.at, text.length),
                        json.length,
                        &*fault,
                        &mut *answer,
                    )
                }
            }
        } else {
            if text.at.is_null() {
                unsafe {
                    null_calls::fault_json_at_null(
                        alloc,
                        &*(given as *const Handle),
                        status,
                        text.length,
                        from_raw_parts_mut(json.at, json.length),
                        &*fault,
                        &mut *answer,
                    )
                }
            } else {
                unsafe {
                    reports::fault_json(
                        alloc,
                        &*(given as *const Handle),
                        status,
                        from_raw_parts(text.at, text.length),
                        from_raw_parts_mut(json.at, json.length),
                        &*fault,
                        &mut *answer,
                    )
                }
            }
        }
    }
}
