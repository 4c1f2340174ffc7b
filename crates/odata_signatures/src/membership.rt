//! Which type `in` makes of an operand and a path.
ghost use Rattle.std.specs.Prelude.{ℕ, List, Option, IfSome, IfNone};
ghost use Rattle.csdl_schema.specs.ExprType.{ExprType};
ghost use Rattle.odata_signatures.specs.CollectionTyped.{InPathTyped};
ghost use Rattle.odata_signatures.specs.Side.{quoting};
ghost use Rattle.odata_signatures.specs.TypeView.{expr_type};
ghost use Rattle.odata_signatures.specs.TypeThere.{IsTypeThere};

use super::comparable_types::are_comparable;
use super::edm_type::{BOOLEAN, EdmType};
use csdl_schema::Schema;

/// Returns the type of `in` before a path of the second type. `None` where that is not a collection, or its members
/// cannot be compared with a value of the first.
pub fn in_path_type(schema: &Schema, left: &EdmType, path: &EdmType) -> Option<EdmType>
    requires left { IsTypeThere schema.now left.now }
    requires path { IsTypeThere schema.now path.now }
    ensures typed { (l r : Option (List ℕ)) → IfSome result (λ t. InPathTyped
        (quoting l (expr_type schema.now left.now)) (quoting r (expr_type schema.now path.now))
        (expr_type schema.now t)) }
    ensures there { IfSome result (IsTypeThere schema.now) }
    ensures none { (l r : Option (List ℕ)) → IfNone result ((type : ExprType) → ¬ InPathTyped
        (quoting l (expr_type schema.now left.now)) (quoting r (expr_type schema.now path.now)) type) }
{
    match path {
        EdmType::Collection(member) => {
            if are_comparable(schema, left, &EdmType::Single(*member)) {
                Some(BOOLEAN)
            } else {
                None
            }
        }
        EdmType::Null => None,
        EdmType::Single(_) => None,
    }
}
