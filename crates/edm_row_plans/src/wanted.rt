//! What properties are read as.
ghost use Rattle.std.specs.Prelude.{◌≡◌};
ghost use Rattle.edm_row_plans.specs.Expanded.{may_hold_null, navigates, wanted_with};

use csdl_schema::{EnumId, Property, PropertyKind, TypeId};
use edm_values::Prim;

/// How a property, or an item of it, is read.
#[derive(Clone, Copy)]
pub enum Wanted {
    Prim(Prim),
    Enum(EnumId),
    Complex(TypeId),
}

/// Returns how a property is read, if a navigation property leads to that type. One that is not looked at is read as
/// nothing.
#[inline(always)]
pub fn wanted_with(property: &Property, target: Option<TypeId>) -> Option<Wanted>
    ensures { result ≡ wanted_with property.now.kind target }
{
    match property.kind {
        PropertyKind::Prim(prim) => Some(Wanted::Prim(prim)),
        PropertyKind::Enum(id) => Some(Wanted::Enum(id)),
        PropertyKind::Complex(id) => Some(Wanted::Complex(id)),
        PropertyKind::Opaque => None,
        PropertyKind::Navigation => match target {
            Some(id) => Some(Wanted::Complex(id)),
            None => None,
        },
    }
}

/// Returns whether a property is a navigation property.
pub fn navigates(property: &Property) -> bool
    ensures { result ≡ navigates property.now.kind }
{
    match property.kind {
        PropertyKind::Navigation => true,
        PropertyKind::Prim(_) => false,
        PropertyKind::Enum(_) => false,
        PropertyKind::Complex(_) => false,
        PropertyKind::Opaque => false,
    }
}

/// Returns whether the items of a collection may be null. Those of a navigation property may not.
pub fn may_hold_null(property: &Property) -> bool
    ensures { result ≡ may_hold_null property.now.kind property.now.nullable }
{
    property.nullable && !navigates(property)
}
