//! The filter of a whole query.
ghost use Rattle.std.specs.Prelude.{◌≡◌, MatchResult};
ghost use Rattle.odata_queries.specs.Find.{found_model};
ghost use Rattle.handle_calls.specs.UrlCalls.{IsFoundFor, IsNotFound, ReportsFound};

use call_handles::{Answer, Fault, Handle, write_text};
use odata_queries::{FindFault, FoundFilter, find_filter};
use std::alloc::Global;

/// The filter in a whole query, its text and where it stands, for a handle that is a type.
pub(crate) fn found_for(alloc: Global, handle: &Handle, query: &[u8]) -> Result<FoundFilter, Fault>
    ensures { MatchResult result (λ found. IsFoundFor handle.now query.now (found_model found))
        (IsNotFound handle.now query.now) }
{
    match handle {
        Handle::Type(_) => match find_filter(alloc, query) {
            Ok(Some(found)) => Ok(found),
            Ok(None) => Err(Fault::NoFilter),
            Err(FindFault::Memory) => Err(Fault::Memory),
            Err(fault) => Err(Fault::Whole(fault)),
        },
        _ => Err(Fault::OtherKind),
    }
}

/// Writes a filter's text where the buffer takes it, and adds its length and where it stands to what is reported.
pub(crate) fn report_found(found: &FoundFilter, buffer: &mut [u8], answer: &mut Answer)
    ensures { ReportsFound (found_model found.now) buffer.old buffer.new answer.old answer.new }
{
    let text = found.text.as_bytes();
    write_text(buffer, text);
    answer.length = text.len();
    answer.piece_start = found.piece.start;
    answer.piece_stop = found.piece.stop;
    answer.value_start = found.value.start;
    answer.value_stop = found.value.stop;
}
