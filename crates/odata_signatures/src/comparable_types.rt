//! Which types a comparison takes on its two sides.
ghost use Rattle.std.specs.Prelude.{◌≡◌, ◌↔◌, IsTrue};
ghost use Rattle.csdl_schema.specs.SchemaModel.{SchemaModel, HoldsEnumeration, type_name_at};
ghost use Rattle.odata_signatures.specs.ComparableTypes.{AreAlikePrimitives, AreComparable, AreComparableSingles, AreComparedBy, AreOrdered, IsOrderedPrimitive, IsOrderedSingle};
ghost use Rattle.odata_signatures.specs.TypeView.{expr_type, single_type};
ghost use Rattle.odata_signatures.specs.TypeThere.{IsThere, IsTypeThere};

use super::edm_type::{EdmType, ValueType};
use csdl_schema::{EnumId, Schema};
use edm_values::Prim;
use odata_syntax::ComparisonOperator;

/// Whether the comparison takes values of these types.
pub(crate) fn are_compared(
    schema: &Schema,
    comparison: ComparisonOperator,
    left: &EdmType,
    right: &EdmType,
) -> bool
    requires left { IsTypeThere schema.now left.now }
    requires right { IsTypeThere schema.now right.now }
    ensures { IsTrue result ↔ AreComparedBy comparison (expr_type schema.now left.now)
        (expr_type schema.now right.now) }
{
    match comparison {
        ComparisonOperator::Eq | ComparisonOperator::Ne => are_comparable(schema, left, right),
        ComparisonOperator::Gt
        | ComparisonOperator::Ge
        | ComparisonOperator::Lt
        | ComparisonOperator::Le => are_ordered(schema, left, right),
    }
}

/// Returns whether `eq`, `ne` and `in` take values of these types.
pub fn are_comparable(schema: &Schema, left: &EdmType, right: &EdmType) -> bool
    requires left { IsTypeThere schema.now left.now }
    requires right { IsTypeThere schema.now right.now }
    ensures { IsTrue result ↔ AreComparable (expr_type schema.now left.now) (expr_type schema.now right.now) }
{
    match left {
        EdmType::Null => match right {
            EdmType::Null => true,
            EdmType::Single(_) => true,
            EdmType::Collection(_) => false,
        },
        EdmType::Single(left) => match right {
            EdmType::Null => true,
            EdmType::Single(right) => are_comparable_singles(schema, *left, *right),
            EdmType::Collection(_) => false,
        },
        EdmType::Collection(_) => false,
    }
}

fn are_ordered(schema: &Schema, left: &EdmType, right: &EdmType) -> bool
    requires left { IsTypeThere schema.now left.now }
    requires right { IsTypeThere schema.now right.now }
    ensures { IsTrue result ↔ AreOrdered (expr_type schema.now left.now) (expr_type schema.now right.now) }
{
    match left {
        EdmType::Null => match right {
            EdmType::Null => true,
            EdmType::Single(right) => is_ordered(*right),
            EdmType::Collection(_) => false,
        },
        EdmType::Single(left) => match right {
            EdmType::Null => is_ordered(*left),
            EdmType::Single(right) => are_comparable_singles(schema, *left, *right)
                && is_ordered(*left),
            EdmType::Collection(_) => false,
        },
        EdmType::Collection(_) => false,
    }
}

/// Whether the types are two numbers, or one primitive type or one enumeration on both sides.
fn are_comparable_singles(schema: &Schema, left: ValueType, right: ValueType) -> bool
    requires left { IsThere schema.now left }
    requires right { IsThere schema.now right }
    ensures { IsTrue result ↔ AreComparableSingles (single_type schema.now left) (single_type schema.now right) }
{
    match left {
        ValueType::Prim(left) => match right {
            ValueType::Prim(right) => are_alike(left, right),
            ValueType::Enum(_) => false,
            ValueType::Structured(_) => false,
        },
        ValueType::Enum(left) => match right {
            ValueType::Prim(_) => false,
            ValueType::Enum(right) => is_same_enumeration(schema, left, right),
            ValueType::Structured(_) => false,
        },
        ValueType::Structured(_) => false,
    }
}

fn are_alike(left: Prim, right: Prim) -> bool
    ensures { IsTrue result ↔ AreAlikePrimitives left right }
{
    (left.is_number() && right.is_number()) || left == right
}

/// Whether they are one enumeration. Each has a name of its own.
pub(crate) fn is_same_enumeration(schema: &Schema, left: EnumId, right: EnumId) -> bool
    requires left { HoldsEnumeration schema.now left }
    requires right { HoldsEnumeration schema.now right }
    ensures { IsTrue result ↔ (type_name_at schema.now left ≡ type_name_at schema.now right) }
{
    // What is known of an enumeration's name is known once it has been asked for.
    let _name = schema.enum_name(left);
    left == right
}

/// Whether the values of the type have an order.
fn is_ordered(value_type: ValueType) -> bool
    ensures { (schema : SchemaModel) → IsTrue result ↔ IsOrderedSingle (single_type schema value_type) }
{
    match value_type {
        ValueType::Prim(prim) => is_ordered_primitive(prim),
        ValueType::Enum(_) => false,
        ValueType::Structured(_) => false,
    }
}

fn is_ordered_primitive(prim: Prim) -> bool
    ensures { IsTrue result ↔ IsOrderedPrimitive prim }
{
    match prim {
        Prim::Bool
        | Prim::Byte
        | Prim::SByte
        | Prim::Int16
        | Prim::Int32
        | Prim::Int64
        | Prim::String
        | Prim::Date
        | Prim::DateTimeOffset => true,
        Prim::Guid => false,
    }
}
