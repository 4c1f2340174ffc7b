//! Sentences for people about faults.
ghost use Rattle.std.specs.Prelude.{◌≡◌, IfOk, IsTrue, MatchResult, is_some};
ghost use Rattle.fault_sentences.specs.Numbers.{is_known};
ghost use Rattle.report_calls.specs.Sentences.{IsNoSentence, IsNoSentenceFor, IsSentenceFor, has_fault};

use crate::fault_reports::report_of;
use call_handles::{Answer, Fault, Handle, TypeHandle};
use fault_sentences::{Report, fault_sentence};
use filter_hints::{FilterOf, advise};
use std::alloc::{AllocError, Global};

/// The sentence about a fault, with what the type shows of what was meant.
fn sentence_about(
    alloc: Global,
    held: Option<&TypeHandle>,
    report: &Report<'_>,
) -> Result<Option<String>, AllocError>
    ensures { IfOk result (λ sentence. is_some sentence ≡ is_known report.now.class report.now.number) }
{
    match held {
        Some(held) => {
            let filter = FilterOf {
                schema: &held.schema,
                id: held.id,
                report,
            };
            advise(alloc, &filter)
        }
        None => fault_sentence(alloc, report),
    }
}

/// A sentence about a fault, which names the type if there is one.
pub(crate) fn sentence_of(
    alloc: Global,
    held: Option<&TypeHandle>,
    status: u32,
    fault: &Answer,
    text: &[u8],
) -> Result<String, Fault>
    ensures { MatchResult result (λ sentence. IsTrue (has_fault status fault.now.fault))
        (IsNoSentence status fault.now.fault text.now) }
{
    let report = report_of(held, status, fault, text)?;
    match sentence_about(alloc, held, &report) {
        Ok(Some(sentence)) => Ok(sentence),
        Ok(None) => Err(Fault::UnknownNumber),
        Err(_) => Err(Fault::Memory),
    }
}

/// A sentence about a fault of a filter, query or row of the type that a handle is.
pub(crate) fn sentence_for(
    alloc: Global,
    handle: &Handle,
    status: u32,
    fault: &Answer,
    text: &[u8],
) -> Result<String, Fault>
    ensures { MatchResult result (λ sentence. IsSentenceFor handle.now status fault.now.fault)
        (IsNoSentenceFor handle.now status fault.now.fault text.now) }
{
    match handle {
        Handle::Type(held) => sentence_of(alloc, Some(held), status, fault, text),
        _ => Err(Fault::OtherKind),
    }
}
