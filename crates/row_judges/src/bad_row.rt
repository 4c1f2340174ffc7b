ghost use Rattle.std.specs.Prelude.{◌≡◌};
ghost use Rattle.row_judges.specs.RowAnswer.{is_memory};
ghost use Rattle.row_judges.specs.private.BadTexts.{bad_text};

use edm_entities::{RowFault, TextFault};
use odata_eval::EvalFault;
use thiserror::Error;

/// Why a row has no verdict. To the faults of an entity, and of a filter on it, it adds a row that is no JSON. An
/// allocation that failed says nothing of the row ([`is_memory`](BadRow::is_memory)), and is never a line's fault.
#[derive(Debug, Drop, Error)]
pub enum BadRow {
    /// It is not UTF-8, or not JSON that `serde_json` reads.
    #[error("Json")]
    NotJson,
    /// Its value is not an entity of the filtered type.
    #[error("{0}")]
    NoEntity(RowFault),
    /// The filter has no value on its entity.
    #[error("{0}")]
    NoValue(EvalFault),
}

impl BadRow {
    /// Whether an allocation failed. A judge of lines reports no such fault.
    pub fn is_memory(&self) -> bool
        ensures { result ≡ is_memory self.now }
    {
        match self {
            BadRow::NotJson => false,
            BadRow::NoEntity(fault) => matches!(fault, RowFault::Memory),
            BadRow::NoValue(fault) => matches!(fault, EvalFault::Memory),
        }
    }
}

/// The fault of a row whose text has that one.
pub(crate) fn bad_text(fault: TextFault) -> BadRow
    ensures { result ≡ bad_text fault }
{
    match fault {
        TextFault::NotJson => BadRow::NotJson,
        TextFault::NoEntity(fault) => BadRow::NoEntity(fault),
    }
}
