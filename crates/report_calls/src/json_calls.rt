//! Faults whole, as JSON.
ghost use Rattle.std.specs.Prelude.{◌≡◌, IfOk, IsTrue, MatchResult, is_some};
ghost use Rattle.fault_sentences.specs.Numbers.{is_known};
ghost use Rattle.report_calls.specs.Sentences.{IsNoSentence, IsNoSentenceFor, IsSentenceFor, has_fault};

use crate::fault_reports::report_of;
use call_handles::{Answer, Fault, Handle, TypeHandle};
use fault_json::{LocatedFault, fault_json};
use fault_sentences::{FaultClass, Report};
use std::alloc::{AllocError, Global};

/// The line of a row's fault in a run; a row by itself has none.
fn line_of(class: FaultClass, fault: &Answer) -> Option<u64> {
    match class {
        FaultClass::Json
        | FaultClass::Row
        | FaultClass::Evaluation
        | FaultClass::Line
        | FaultClass::TooCostly => {
            if fault.number == 0 {
                None
            } else {
                Some(fault.number)
            }
        }
        _ => None,
    }
}

/// The object of a fault, with what the type shows of what was meant.
fn object_about(
    alloc: Global,
    held: Option<&TypeHandle>,
    report: &Report<'_>,
    line: Option<u64>,
) -> Result<Option<String>, AllocError>
    ensures { IfOk result (λ object. is_some object ≡ is_known report.now.class report.now.number) }
{
    let filtered = match held {
        Some(held) => Some((&*held.schema, held.id)),
        None => None,
    };
    let located = LocatedFault {
        report: *report,
        filtered,
        file: None,
        line,
        column: None,
    };
    fault_json(alloc, &located)
}

/// A fault as an object, for the type if there is one.
pub(crate) fn json_of(
    alloc: Global,
    held: Option<&TypeHandle>,
    status: u32,
    fault: &Answer,
    text: &[u8],
) -> Result<String, Fault>
    ensures { MatchResult result (λ object. IsTrue (has_fault status fault.now.fault))
        (IsNoSentence status fault.now.fault text.now) }
{
    let report = report_of(held, status, fault, text)?;
    match object_about(alloc, held, &report, line_of(report.class, fault)) {
        Ok(Some(object)) => Ok(object),
        Ok(None) => Err(Fault::UnknownNumber),
        Err(_) => Err(Fault::Memory),
    }
}

/// A fault of a filter, query or row of the type that a handle is, as an object.
pub(crate) fn json_for(
    alloc: Global,
    handle: &Handle,
    status: u32,
    fault: &Answer,
    text: &[u8],
) -> Result<String, Fault>
    ensures { MatchResult result (λ object. IsSentenceFor handle.now status fault.now.fault)
        (IsNoSentenceFor handle.now status fault.now.fault text.now) }
{
    match handle {
        Handle::Type(held) => json_of(alloc, Some(held), status, fault, text),
        _ => Err(Fault::OtherKind),
    }
}
