//! What is wrong with a JSON value, and the way to it, as the walk finds them.
ghost use Rattle.std.specs.Prelude.{◌≡◌, None, IfOk, decimal};
ghost use Rattle.edm_entities.specs.private.Faults.{IsBelow, IsPathBelow, IsReportedAs};

use super::row_fault::RowFault;
use std::alloc::{AllocError, Global};
use thiserror::Error;

/// What is wrong with a value, before the way to it is reported.
#[derive(Clone, Copy, Debug, Error)]
pub(crate) enum ReadFlaw {
    #[error("Missing")]
    Missing,
    #[error("WrongKind")]
    WrongKind,
    #[error("NullNotAllowed")]
    NullNotAllowed,
    #[error("OutOfRange")]
    OutOfRange,
    #[error("BadText")]
    BadText,
    #[error("NotExpanded")]
    NotExpanded,
    #[error("memory")]
    Memory,
}

/// A flaw and the way to it, with `/` between its steps; none where the value itself is at fault.
#[derive(Drop)]
pub(crate) struct ReadFault {
    pub(crate) flaw: ReadFlaw,
    pub(crate) path: Option<String>,
}

/// The fault of a value that is itself at fault.
pub(crate) fn fault_here(flaw: ReadFlaw) -> ReadFault
    ensures flaw { result.flaw ≡ flaw }
    ensures here { result.path ≡ None }
{
    ReadFault { flaw, path: None }
}

/// The same fault, reported from one step further up.
pub(crate) fn fault_below(alloc: Global, step: &str, fault: ReadFault) -> ReadFault
    ensures { IsBelow step.now fault result }
{
    match path_below(alloc, step, &fault.path) {
        Ok(path) => ReadFault {
            flaw: fault.flaw,
            path: Some(path),
        },
        Err(_) => fault_here(ReadFlaw::Memory),
    }
}

/// The same, where the step is an item of an array.
pub(crate) fn fault_in_item(alloc: Global, index: usize, fault: ReadFault) -> ReadFault
    ensures { IsBelow (decimal index) fault result }
{
    match format!(in alloc; "{index}") {
        Ok(step) => fault_below(alloc, step.as_str(), fault),
        Err(_) => fault_here(ReadFlaw::Memory),
    }
}

fn path_below(alloc: Global, step: &str, path: &Option<String>) -> Result<String, AllocError>
    ensures { IfOk result (IsPathBelow step.now path.now) }
{
    let mut text = String::from_str(alloc, step)?;
    match path {
        Some(rest) => {
            text.push('/')?;
            text.push_str(rest.as_str())?;
            Ok(text)
        }
        None => Ok(text),
    }
}

/// The fault of a row, from that of its value.
pub(crate) fn row_fault(fault: ReadFault) -> RowFault
    ensures { IsReportedAs fault result }
{
    let flaw = fault.flaw;
    match fault.path {
        Some(path) => match flaw {
            ReadFlaw::Missing => RowFault::Missing { path },
            ReadFlaw::WrongKind => RowFault::WrongKind { path },
            ReadFlaw::NullNotAllowed => RowFault::NullNotAllowed { path },
            ReadFlaw::OutOfRange => RowFault::OutOfRange { path },
            ReadFlaw::BadText => RowFault::BadText { path },
            ReadFlaw::NotExpanded => RowFault::NotExpanded { path },
            ReadFlaw::Memory => RowFault::Memory,
        },
        None => match flaw {
            ReadFlaw::Memory => RowFault::Memory,
            _ => RowFault::NotObject,
        },
    }
}
