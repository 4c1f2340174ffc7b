//! What the schema says of the properties that a filter names.
ghost use Rattle.std.specs.Prelude.{◌≡◌, ◌≢◌, ◌&&◌, ℕ, IfNone, IfSome, not};
ghost use Rattle.csdl_schema.specs.PropertyView.{IsReadAs};
ghost use Rattle.csdl_schema.specs.SchemaModel.{PropertyModel, SchemaModel};
ghost use Rattle.odata_signatures.specs.declared.edm_type.EdmType.{EdmType};
ghost use Rattle.odata_signatures.specs.declared.edm_type.ValueType.{ValueType};
ghost use Rattle.odata_ranges.specs.Kept.{property_takes_null};
ghost use Rattle.odata_ranges.specs.Owners.{IsOwnerAt, NamesProperty};

use super::node_lookups::node_at;
use csdl_schema::{Property, PropertyKind, TypeId};
use odata_checked_filter::{Checked, NodeKind};
use odata_signatures::{EdmType, ValueType, trees_have_one_type};

/// The type whose property the node names: the filtered one, or that of what stands before the slash.
pub fn owner_of(checked: &Checked<'_>, place: usize) -> TypeId
    requires { NamesProperty checked.now place }
    ensures { IsOwnerAt checked.now place result }
{
    trees_have_one_type();
    let count = checked.nodes().len();
    let node = node_at(checked, place);
    if let NodeKind::Member { .. } = node.kind {
        prove!(place + 1 < count);
        let base = node_at(checked, place + 1);
        if let Some(owner) = structured_type(&base.edm_type) {
            return owner;
        }
    }
    checked.filtered_type()
}

/// The type of one entity or complex value.
fn structured_type(edm_type: &EdmType) -> Option<TypeId>
    ensures some { IfSome result (λ id. edm_type.now ≡ EdmType.Single (ValueType.Structured id)) }
    ensures none { IfNone result ((id : ℕ) → edm_type.now ≢ EdmType.Single (ValueType.Structured id)) }
{
    match edm_type {
        EdmType::Single(ValueType::Structured(id)) => Some(*id),
        EdmType::Single(ValueType::Prim(_)) => None,
        EdmType::Single(ValueType::Enum(_)) => None,
        EdmType::Null => None,
        EdmType::Collection(_) => None,
    }
}

/// Whether an entity may have null there. A property that navigates is null where it is not expanded.
pub(crate) fn takes_null(property: &Property) -> bool
    ensures { (schema : SchemaModel) (declaration : PropertyModel) → IsReadAs schema declaration property.now
        → result ≡ property_takes_null declaration.type_of declaration.nullable }
{
    match property.kind {
        PropertyKind::Opaque => true,
        PropertyKind::Navigation => true,
        _ => takes_one(property.many, property.nullable),
    }
}

/// A collection is never null: of its members it is said whether they are.
fn takes_one(many: bool, nullable: bool) -> bool
    ensures { result ≡ (not many && nullable) }
{
    !many && nullable
}
