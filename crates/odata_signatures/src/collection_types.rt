//! Which type `/$count` and `/any()` make of that of a collection.
ghost use Rattle.std.specs.Prelude.{IfSome, IfNone};
ghost use Rattle.csdl_schema.specs.ExprType.{ExprType};
ghost use Rattle.csdl_schema.specs.SchemaModel.{SchemaModel};
ghost use Rattle.odata_signatures.specs.CollectionTyped.{AnyItemTyped, CountTyped};
ghost use Rattle.odata_signatures.specs.TypeView.{expr_type};
ghost use Rattle.odata_signatures.specs.TypeThere.{IsTypeThere};

use super::edm_type::{BOOLEAN, EdmType, ValueType};
use edm_values::Prim;

/// Returns the type of `/$count` after a base of this type. `None` where that is not a collection.
pub fn count_type(base: &EdmType) -> Option<EdmType>
    ensures typed { (schema : SchemaModel) → IfSome result
        (λ t. CountTyped (expr_type schema base.now) (expr_type schema t)) }
    ensures there { (schema : SchemaModel) → IfSome result (IsTypeThere schema) }
    ensures none { (schema : SchemaModel) → IfNone result
        ((type : ExprType) → ¬ CountTyped (expr_type schema base.now) type) }
{
    if base.is_collection() {
        Some(EdmType::Single(ValueType::Prim(Prim::Int64)))
    } else {
        None
    }
}

/// Returns the type of `/any()` after a base of this type. `None` where that is not a collection.
pub fn any_item_type(base: &EdmType) -> Option<EdmType>
    ensures typed { (schema : SchemaModel) → IfSome result
        (λ t. AnyItemTyped (expr_type schema base.now) (expr_type schema t)) }
    ensures there { (schema : SchemaModel) → IfSome result (IsTypeThere schema) }
    ensures none { (schema : SchemaModel) → IfNone result
        ((type : ExprType) → ¬ AnyItemTyped (expr_type schema base.now) type) }
{
    if base.is_collection() {
        Some(BOOLEAN)
    } else {
        None
    }
}
