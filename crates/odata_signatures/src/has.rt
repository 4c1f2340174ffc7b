//! Which type `has` makes of those of its operands.
ghost use Rattle.std.specs.Prelude.{◌≡◌, ◌↔◌, IsTrue, IfSome, IfNone};
ghost use Rattle.csdl_schema.specs.ExprType.{null_type, single, enumeration};
ghost use Rattle.csdl_schema.specs.SchemaModel.{SchemaModel, HoldsEnumeration, type_name_at};
ghost use Rattle.odata_signatures.specs.ExprTypes.{boolean_type};
ghost use Rattle.odata_signatures.specs.HasTyped.{AreFlags};
ghost use Rattle.odata_signatures.specs.TypeView.{expr_type};
ghost use Rattle.odata_signatures.specs.TypeThere.{IsTypeThere};

use super::comparable_types::is_same_enumeration;
use super::edm_type::{BOOLEAN, EdmType, ValueType};
use csdl_schema::{EnumId, Schema};

/// Returns the type of `has` between operands of these types, by the types alone. `None` where it takes none of these.
pub fn has_type(schema: &Schema, left: &EdmType, right: &EdmType) -> Option<EdmType>
    requires left { IsTypeThere schema.now left.now }
    requires right { IsTypeThere schema.now right.now }
    ensures flags { IfSome result (λ _. AreFlags (expr_type schema.now left.now) (expr_type schema.now right.now)) }
    ensures typed { IfSome result (λ t. expr_type schema.now t ≡ boolean_type) }
    ensures there { IfSome result (IsTypeThere schema.now) }
    ensures none { IfNone result (¬ AreFlags (expr_type schema.now left.now) (expr_type schema.now right.now)) }
{
    if are_flags(schema, left, right) {
        Some(BOOLEAN)
    } else {
        None
    }
}

fn are_flags(schema: &Schema, left: &EdmType, right: &EdmType) -> bool
    requires left { IsTypeThere schema.now left.now }
    requires right { IsTypeThere schema.now right.now }
    ensures { IsTrue result ↔ AreFlags (expr_type schema.now left.now) (expr_type schema.now right.now) }
{
    match left {
        EdmType::Null => are_flags_of_null(right),
        EdmType::Single(ValueType::Enum(left)) => are_flags_of(schema, *left, right),
        EdmType::Single(ValueType::Prim(_)) => false,
        EdmType::Single(ValueType::Structured(_)) => false,
        EdmType::Collection(_) => false,
    }
}

fn are_flags_of_null(right: &EdmType) -> bool
    ensures { (schema : SchemaModel) → IsTrue result ↔ AreFlags null_type (expr_type schema right.now) }
{
    match right {
        EdmType::Null => true,
        EdmType::Single(ValueType::Enum(_)) => true,
        EdmType::Single(ValueType::Prim(_)) => false,
        EdmType::Single(ValueType::Structured(_)) => false,
        EdmType::Collection(_) => false,
    }
}

fn are_flags_of(schema: &Schema, left: EnumId, right: &EdmType) -> bool
    requires left { HoldsEnumeration schema.now left }
    requires right { IsTypeThere schema.now right.now }
    ensures { IsTrue result ↔ AreFlags
        (single (enumeration (type_name_at schema.now left))) (expr_type schema.now right.now) }
{
    match right {
        EdmType::Null => true,
        EdmType::Single(ValueType::Enum(right)) => is_same_enumeration(schema, left, *right),
        EdmType::Single(ValueType::Prim(_)) => false,
        EdmType::Single(ValueType::Structured(_)) => false,
        EdmType::Collection(_) => false,
    }
}
