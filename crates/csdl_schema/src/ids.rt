ghost use Rattle.std.specs.Prelude.{◌≡◌, ℕ};

use std::marker::Model;

/// An entity or complex type of a schema.
#[derive(Clone, Copy, Debug, PartialEq, Eq)]
pub struct TypeId {
    index: usize,
}

impl Model for TypeId {
    ghost Value = { ℕ };

    ghost view = { λ id. id.index };

    ghost inverse = { λ n. record { index = n } };
}

impl TypeId {
    pub(crate) fn from_index(index: usize) -> TypeId
        ensures { result ≡ index }
    {
        TypeId { index }
    }

    pub(crate) fn index(self) -> usize
        ensures { result ≡ self }
    {
        self.index
    }
}

/// An enumeration type of a schema.
#[derive(Clone, Copy, Debug, PartialEq, Eq)]
pub struct EnumId {
    index: usize,
}

impl Model for EnumId {
    ghost Value = { ℕ };

    ghost view = { λ id. id.index };

    ghost inverse = { λ n. record { index = n } };
}

impl EnumId {
    pub(crate) fn from_index(index: usize) -> EnumId
        ensures { result ≡ index }
    {
        EnumId { index }
    }

    pub(crate) fn index(self) -> usize
        ensures { result ≡ self }
    {
        self.index
    }
}
