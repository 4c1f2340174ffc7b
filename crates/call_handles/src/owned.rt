//! A handle as C holds it.
ghost use Rattle.std.specs.Prelude.{◌≡◌, Option, None, Some, MatchOption};
ghost use Rattle.call_handles.specs.Owned.{owned_code};
ghost use Rattle.call_handles.specs.declared.handle.Handle.{Handle};

use crate::handle::Handle;
use crate::raw::Raw;
use std::alloc::Global;
use std::marker::Model;
use std::ptr;

/// A handle that belongs to whoever holds it, or null.
#[repr(C)]
#[derive(Drop)]
pub struct Owned {
    at: *mut u8,
    pub ghost value: { Option Handle } by { owned_code },
}

impl Model for Owned {
    ghost use Rattle.call_handles.specs.Owned.{owned_or_null};

    ghost also_owns = { λ o. owned_or_null o.at o.value };
}

impl Owned {
    /// No handle.
    pub fn none() -> Owned
        ensures { result.value ≡ None }
    {
        Owned {
            at: ptr::null_mut(),
        }
    }

    /// The handle of a block.
    fn keep(raw: Raw<Handle>) -> Owned
        ensures { result.value ≡ Some raw.value }
    {
        let Raw { at } = raw;
        Owned { at: at as *mut u8 }
    }

    /// The handle of a value.
    pub fn of(value: Box<Handle>) -> Owned
        ensures { result.value ≡ Some value.value }
    {
        Owned::keep(Raw::of(value))
    }

    /// The value of a handle, if there is one.
    pub fn into_box(self, alloc: Global) -> Option<Box<Handle>>
        ensures { MatchOption result (self.value ≡ None) (λ b. self.value ≡ Some b.value) }
    {
        let Owned { at } = self;
        if at.is_null() {
            return None;
        }
        Some(unsafe { Box::from_raw(alloc, at as *mut Handle) })
    }
}
