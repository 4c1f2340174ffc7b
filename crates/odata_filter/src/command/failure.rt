ghost use Rattle.std.specs.Prelude.{◌≡◌, ◌<◌, [], if◌then◌else◌};
ghost use Rattle.odata_filter.specs.FailureStatus.{status_of};
ghost use Rattle.odata_filter.specs.Run.{status_number};

use csdl_schema::SchemaFault;
use filter_runs::RunFault;
use odata_queries::QueryFault;
use odata_typing::Refusal;
use thiserror::Error;

/// Why a run ended before the end of its rows. To a fault of rows it adds those before them, and the status. It is
/// displayed as the one line that is reported, a refusal as what stands after `refused ` there: running out of memory
/// is `memory`, wherever it comes from.
#[derive(Debug, Drop, Error)]
pub enum Failure<'p> {
    #[error("usage now is not a moment")]
    NotAMoment,
    #[error("usage give one of filter and query")]
    OneOf,
    #[error("{}{}", unless(matches!(.0, SchemaFault::Memory), "schema "), .0)]
    Schema(SchemaFault),
    #[error("schema UnknownType {0}")]
    UnknownType(&'p str),
    #[error("{}{}", unless(matches!(.0, QueryFault::Memory), "query "), .0)]
    Query(QueryFault),
    #[error("usage no filter option")]
    NoOption,
    #[error("{0}")]
    Refused(Refusal),
    #[error("usage now is needed")]
    NoMoment,
    #[error("read {0}")]
    RowsFile(&'p str),
    #[error("{0}")]
    Rows(RunFault),
}

/// What stands before a fault, or nothing before running out of memory.
fn unless(of_memory: bool, layer: &'static str) -> &'static str
    ensures { result.now ≡ (if of_memory then [] else layer.now) }
{
    if of_memory { "" } else { layer }
}

impl Failure<'_> {
    /// The status that the program ends with.
    pub fn status(&self) -> u8
        ensures exact { result ≡ status_number (status_of self.now) }
        ensures known { (0 < result) × (result < 7) }
    {
        match self {
            Failure::Schema(SchemaFault::Memory) | Failure::Query(QueryFault::Memory) => 6,
            Failure::Refused(Refusal::Memory) | Failure::Rows(RunFault::Memory { .. }) => 6,
            Failure::Query(_) | Failure::Refused(_) => 1,
            Failure::NotAMoment | Failure::OneOf | Failure::NoOption | Failure::NoMoment => 2,
            Failure::Schema(_) | Failure::UnknownType(_) => 3,
            Failure::RowsFile(_)
            | Failure::Rows(RunFault::Read { .. })
            | Failure::Rows(RunFault::Write) => 5,
            Failure::Rows(_) => 4,
        }
    }
}
