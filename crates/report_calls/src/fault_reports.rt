//! What a fault is, as its sentence and its object take it.
ghost use Rattle.std.specs.Prelude.{◌≡◌, IfErr, IsUtf8, MatchResult, Some};
ghost use Rattle.report_calls.specs.Sentences.{IsNoSentence, class_under};

use call_handles::{Answer, Fault, TypeHandle};
use fault_sentences::{FaultClass, Report};
use odata_text::Span;

/// What is at fault under a status.
fn class_of_status(status: u32) -> Option<FaultClass>
    ensures { result ≡ class_under status }
{
    match status {
        6 => Some(FaultClass::UnknownType),
        7 => Some(FaultClass::NoFilter),
        8 => Some(FaultClass::MomentNeeded),
        9 => Some(FaultClass::NotAMoment),
        16 => Some(FaultClass::Schema),
        17 => Some(FaultClass::Text),
        18 => Some(FaultClass::Syntax),
        19 => Some(FaultClass::Typing),
        20 => Some(FaultClass::Query),
        21 => Some(FaultClass::Json),
        22 => Some(FaultClass::Row),
        23 => Some(FaultClass::Evaluation),
        24 => Some(FaultClass::Line),
        25 => Some(FaultClass::TooCostly),
        26 => Some(FaultClass::Unsayable),
        27 => Some(FaultClass::TooDeep),
        28 => Some(FaultClass::UnknownColumn),
        _ => None,
    }
}

/// Where a fault is, as its sentence takes it: of a schema the length of the first name, of a query the number.
fn fault_span(class: FaultClass, fault: &Answer) -> Span {
    match class {
        FaultClass::Schema => Span {
            start: fault.first,
            stop: fault.length,
        },
        FaultClass::Query => Span {
            start: fault.number as usize,
            stop: fault.number as usize,
        },
        _ => Span {
            start: fault.start,
            stop: fault.stop,
        },
    }
}

/// The text that a fault is about; a query that is not UTF-8 is left out of its sentence.
fn fault_subject(class: FaultClass, text: &[u8]) -> Result<&str, Fault>
    ensures { IfErr result (λ fault. (fault ≡ Fault.NotUtf8) × (¬ IsUtf8 text.now)) }
{
    match str::from_utf8(text) {
        Ok(text) => Ok(text),
        Err(_) => match class {
            FaultClass::Query => Ok(""),
            _ => Err(Fault::NotUtf8),
        },
    }
}

/// The name of a type.
fn name_of(held: &TypeHandle) -> Option<&str> {
    held.schema.type_name(held.id)
}

/// The fault of a status, for the type if there is one; its number may be of no fault.
pub(crate) fn report_of<'t>(
    held: Option<&'t TypeHandle>,
    status: u32,
    fault: &Answer,
    text: &'t [u8],
) -> Result<Report<'t>, Fault>
    ensures { MatchResult result
        (λ report. (class_under status ≡ Some report.class) × (report.number ≡ fault.now.fault))
        (IsNoSentence status fault.now.fault text.now) }
{
    let Some(class) = class_of_status(status) else {
        return Err(Fault::UnknownNumber);
    };
    let Ok(number) = u8::try_from(fault.fault) else {
        return Err(Fault::UnknownNumber);
    };
    Ok(Report {
        class,
        number,
        span: fault_span(class, fault),
        text: fault_subject(class, text)?,
        type_name: held.and_then(name_of),
    })
}
