//! Refusals with the names that they report, or `Memory` where these cannot be stored.
ghost use Rattle.csdl_declarations.specs.Fault as fault;
ghost use Rattle.csdl_declarations.specs.private.FaultView.{ReportsFault};

use csdl_declarations::SchemaFault;
use std::alloc::Global;

pub(crate) fn unknown_base(alloc: Global, owner: &str) -> SchemaFault
    ensures { ReportsFault result (fault.unknown_base owner.now) }
{
    match owner.to_owned(alloc) {
        Ok(owner) => SchemaFault::UnknownBase { owner },
        Err(_) => SchemaFault::Memory,
    }
}

pub(crate) fn base_cycle(alloc: Global, owner: &str) -> SchemaFault
    ensures { ReportsFault result (fault.base_cycle owner.now) }
{
    match owner.to_owned(alloc) {
        Ok(owner) => SchemaFault::BaseCycle { owner },
        Err(_) => SchemaFault::Memory,
    }
}

pub(crate) fn property_twice(alloc: Global, owner: &str, name: &str) -> SchemaFault
    ensures { ReportsFault result (fault.property_twice owner.now name.now) }
{
    match owner.to_owned(alloc) {
        Ok(owner) => match name.to_owned(alloc) {
            Ok(name) => SchemaFault::PropertyTwice { owner, name },
            Err(_) => SchemaFault::Memory,
        },
        Err(_) => SchemaFault::Memory,
    }
}
