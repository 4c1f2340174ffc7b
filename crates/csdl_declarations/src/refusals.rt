//! Refusals with the names that they report, or `Memory` where these cannot be kept.
ghost use Rattle.csdl_declarations.specs.Fault as fault;
ghost use Rattle.csdl_declarations.specs.private.FaultView.{ReportsFault};

use super::schema_fault::SchemaFault;
use std::alloc::Global;

pub(crate) fn bad_type(alloc: Global, name: &str) -> SchemaFault
    ensures { ReportsFault result (fault.bad_type name.now) }
{
    match name.to_owned(alloc) {
        Ok(name) => SchemaFault::BadType { name },
        Err(_) => SchemaFault::Memory,
    }
}

pub(crate) fn bad_property(alloc: Global, owner: &str, name: &str) -> SchemaFault
    ensures { ReportsFault result (fault.bad_property owner.now name.now) }
{
    match owner.to_owned(alloc) {
        Ok(owner) => match name.to_owned(alloc) {
            Ok(name) => SchemaFault::BadProperty { owner, name },
            Err(_) => SchemaFault::Memory,
        },
        Err(_) => SchemaFault::Memory,
    }
}

pub(crate) fn bad_enum_member(alloc: Global, owner: &str, name: &str) -> SchemaFault
    ensures { ReportsFault result (fault.bad_enum_member owner.now name.now) }
{
    match owner.to_owned(alloc) {
        Ok(owner) => match name.to_owned(alloc) {
            Ok(name) => SchemaFault::BadEnumMember { owner, name },
            Err(_) => SchemaFault::Memory,
        },
        Err(_) => SchemaFault::Memory,
    }
}
