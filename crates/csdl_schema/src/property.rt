ghost use Rattle.std.specs.Prelude.{◌≡◌};
ghost use Rattle.csdl_schema.specs.PropertyView.{target_of};

use super::ids::{EnumId, TypeId};
use edm_values::Prim;

/// The kind of a property, or of an item of it. An opaque one is never looked at.
#[derive(Clone, Copy, Debug, PartialEq, Eq)]
pub enum PropertyKind {
    Prim(Prim),
    Enum(EnumId),
    Complex(TypeId),
    Opaque,
    Navigation,
}

/// A property as its type declares it. Of a collection, `many` is true and `nullable` speaks of the items.
#[derive(Clone, Copy, Debug, PartialEq, Eq)]
pub struct Property {
    pub kind: PropertyKind,
    pub many: bool,
    pub nullable: bool,
    pub(crate) target: Option<TypeId>,
}

impl Property {
    /// Returns the entity type to which a navigation property leads. One whose `$Type` names no entity type has none.
    pub fn target(&self) -> Option<TypeId>
        ensures { result ≡ target_of self.now }
    {
        self.target
    }
}
