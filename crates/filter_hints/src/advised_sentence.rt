ghost use Rattle.std.specs.Prelude.{◌≡◌, IfOk, is_some};
ghost use Rattle.fault_sentences.specs.Numbers.{is_known};

use crate::filter_of::FilterOf;
use crate::hint::Hint;
use crate::syntax_advice::syntax_advice;
use crate::typing_advice::typing_advice;
use fault_sentences::{FaultClass, fault_sentence};
use std::alloc::{AllocError, Global};

/// What is known of a fault beyond its sentence.
#[derive(Drop)]
pub enum Advice {
    /// A better sentence.
    Instead(Hint),
    /// What to say after it.
    After(Hint),
    None,
}

/// What the filter and its type show of what was meant.
fn known_of_fault(alloc: Global, filter: &FilterOf<'_>) -> Result<Advice, AllocError> {
    match filter.report.class {
        FaultClass::Text | FaultClass::Syntax => syntax_advice(alloc, filter),
        FaultClass::Typing => typing_advice(alloc, filter),
        _ => Ok(Advice::None),
    }
}

/// Returns what [`advise`] does, and the edits that it suggests. Each edit was tried: with it the filter has no fault
/// there or before; but names are offered for their likeness alone.
pub fn advise_with_edits(alloc: Global, filter: &FilterOf<'_>) -> Result<Option<Hint>, AllocError>
    ensures { IfOk result (λ hint. is_some hint
        ≡ is_known filter.now.report.now.class filter.now.report.now.number) }
{
    let sentence = match fault_sentence(alloc, filter.report)? {
        Some(sentence) => sentence,
        None => return Ok(None),
    };
    match known_of_fault(alloc, filter)? {
        Advice::Instead(better) => Ok(Some(better)),
        Advice::After(more) => Ok(Some(Hint {
            text: format!(in alloc; "{} {}", sentence.as_str(), more.text.as_str())?,
            edits: more.edits,
        })),
        Advice::None => Ok(Some(Hint::plain(alloc, sentence))),
    }
}

/// Returns a sentence in English about the fault of a filter. It says what to write instead where the filter and its
/// type show that. `None` if the class has no fault of that number. What it says may change; programs go by the class
/// and the number.
pub fn advise(alloc: Global, filter: &FilterOf<'_>) -> Result<Option<String>, AllocError>
    ensures { IfOk result (λ sentence. is_some sentence
        ≡ is_known filter.now.report.now.class filter.now.report.now.number) }
{
    match advise_with_edits(alloc, filter)? {
        Some(hint) => Ok(Some(hint.text)),
        None => Ok(None),
    }
}
