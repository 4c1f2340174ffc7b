ghost use Rattle.std.specs.Prelude.{◌≡◌};
ghost use Rattle.serde_json.specs.View.{view};
ghost use Rattle.csdl_declarations.specs.TypeKind.{kind_named, type_kind_in, is_other_kind};

use super::member::text_at;
use serde_json::Value;

/// A kind of type that a schema may declare (CSDL JSON 4.01, sections 6, 9, 10 and 11).
#[derive(Clone, Copy)]
pub(crate) enum TypeKind {
    Entity,
    Complex,
    Enumeration,
    Definition,
}

fn kind_named(text: &str) -> Option<TypeKind>
    ensures { result ≡ kind_named text.now }
{
    if text == "EntityType" {
        Some(TypeKind::Entity)
    } else if text == "ComplexType" {
        Some(TypeKind::Complex)
    } else if text == "EnumType" {
        Some(TypeKind::Enumeration)
    } else if text == "TypeDefinition" {
        Some(TypeKind::Definition)
    } else {
        None
    }
}

/// The kind that `$Kind` names.
pub(crate) fn kind_of(value: &Value) -> Option<TypeKind>
    ensures { result ≡ type_kind_in (view value.now) }
{
    match text_at(value, "$Kind") {
        Some(text) => kind_named(text),
        None => None,
    }
}

/// Whether a schema reads over such a member: an array, or an object of another kind.
pub(crate) fn is_other_kind(value: &Value) -> bool
    ensures { result ≡ is_other_kind (view value.now) }
{
    value.is_array() || (text_at(value, "$Kind").is_some() && kind_of(value).is_none())
}
