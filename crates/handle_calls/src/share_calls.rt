//! What a handle stands for, for another owner.
ghost use Rattle.std.specs.Prelude.{IfOk, MatchResult};
ghost use Rattle.handle_calls.specs.Shares.{IsNotShared, IsSame};

use call_handles::{Fault, FilterHandle, Handle, SchemaHandle, TypeHandle};
use std::alloc::AllocError;
use std::sync::Arc;

/// The same schema.
fn shared_schema(held: &SchemaHandle) -> Result<Handle, AllocError>
    ensures { IfOk result (IsSame (Handle.Schema held.now)) }
{
    Ok(Handle::Schema(SchemaHandle {
        schema: Arc::try_clone(&held.schema)?,
    }))
}

/// The same type.
fn shared_type(held: &TypeHandle) -> Result<Handle, AllocError>
    ensures { IfOk result (IsSame (Handle.Type held.now)) }
{
    Ok(Handle::Type(TypeHandle {
        schema: Arc::try_clone(&held.schema)?,
        id: held.id,
        layout: Arc::try_clone(&held.layout)?,
    }))
}

/// The same filter.
fn shared_filter(held: &FilterHandle) -> Result<Handle, AllocError>
    ensures { IfOk result (IsSame (Handle.Filter held.now)) }
{
    Ok(Handle::Filter(FilterHandle {
        schema: Arc::try_clone(&held.schema)?,
        filter: Arc::try_clone(&held.filter)?,
        layout: Arc::try_clone(&held.layout)?,
    }))
}

/// The same schema, type or filter. A judge and conditions have one owner.
pub(crate) fn share_of(handle: &Handle) -> Result<Handle, Fault>
    ensures { MatchResult result (IsSame handle.now) (IsNotShared handle.now) }
{
    let shared = match handle {
        Handle::Schema(held) => shared_schema(held),
        Handle::Type(held) => shared_type(held),
        Handle::Filter(held) => shared_filter(held),
        Handle::Judge(_) => return Err(Fault::OtherKind),
        Handle::Conditions(_) => return Err(Fault::OtherKind),
    };
    match shared {
        Ok(made) => Ok(made),
        Err(_) => Err(Fault::Memory),
    }
}
