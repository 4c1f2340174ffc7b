//! A box as the pointer to its block.
ghost use Rattle.std.specs.Prelude.{◌≡◌};
ghost use Rattle.call_handles.specs.Block.{block_owns};

use std::marker::Model;

/// What a box is without its type: the pointer, and all that the box owned.
pub(crate) struct Raw<T> {
    pub(crate) at: *mut T,
    pub(crate) ghost value: { T },
}

impl<T> Model for Raw<T> {
    ghost also_owns = { λ r. block_owns T.row r.at r.value };
}

impl<T: Drop> Raw<T> {
    pub(crate) fn of(value: Box<T>) -> Raw<T>
        ensures { result.value ≡ value.value }
    {
        Raw {
            at: Box::into_raw(value),
        }
    }
}
