//! Which type an operator makes of those of its operands.
ghost use Rattle.std.specs.Prelude.{IfSome, IfNone};
ghost use Rattle.csdl_schema.specs.ExprType.{ExprType};
ghost use Rattle.csdl_schema.specs.SchemaModel.{SchemaModel};
ghost use Rattle.odata_signatures.specs.OperatorTyped.{ArithmeticTyped, NegationTyped, NotTyped, OperatorByTypes};
ghost use Rattle.odata_signatures.specs.TypeView.{expr_type};
ghost use Rattle.odata_signatures.specs.TypeThere.{IsTypeThere};

use super::comparable_types::are_compared;
use super::edm_type::{BOOLEAN, EdmType};
use csdl_schema::Schema;
use odata_functions::{negation_type, promotion};
use odata_syntax::BinaryOperator;

/// Returns the type that the operator makes of operands of these types, by the types alone. `None` where it takes none
/// of these.
#[inline(always)]
pub fn binary_type(
    schema: &Schema,
    operator: BinaryOperator,
    left: &EdmType,
    right: &EdmType,
) -> Option<EdmType>
    requires left { IsTypeThere schema.now left.now }
    requires right { IsTypeThere schema.now right.now }
    ensures typed { IfSome result (λ t. OperatorByTypes operator
        (expr_type schema.now left.now) (expr_type schema.now right.now) (expr_type schema.now t)) }
    ensures there { IfSome result (IsTypeThere schema.now) }
    ensures none { IfNone result ((type : ExprType) → ¬ OperatorByTypes operator
        (expr_type schema.now left.now) (expr_type schema.now right.now) type) }
{
    match operator {
        BinaryOperator::Logical(_) => if left.is_truth() && right.is_truth() {
            Some(BOOLEAN)
        } else {
            None
        },
        BinaryOperator::Comparison(comparison) => {
            if are_compared(schema, comparison, left, right) {
                Some(BOOLEAN)
            } else {
                None
            }
        }
        BinaryOperator::Arithmetic(_) => promoted_type(left, right),
    }
}

/// The type of arithmetic on operands of these types. `None` where they are no numbers or nulls.
fn promoted_type(left: &EdmType, right: &EdmType) -> Option<EdmType>
    ensures typed { (schema : SchemaModel) → IfSome result (λ t. ArithmeticTyped
        (expr_type schema left.now) (expr_type schema right.now) (expr_type schema t)) }
    ensures there { (schema : SchemaModel) → IfSome result (IsTypeThere schema) }
    ensures none { (schema : SchemaModel) → IfNone result ((type : ExprType) → ¬ ArithmeticTyped
        (expr_type schema left.now) (expr_type schema right.now) type) }
{
    match left.number_operand() {
        Some(left) => match right.number_operand() {
            Some(right) => Some(EdmType::of_number(promotion(left, right))),
            None => None,
        },
        None => None,
    }
}

/// Returns the type of the negation of an operand of this type. `None` where it is neither a number nor null.
pub fn negated_type(operand: &EdmType) -> Option<EdmType>
    ensures typed { (schema : SchemaModel) → IfSome result
        (λ t. NegationTyped (expr_type schema operand.now) (expr_type schema t)) }
    ensures there { (schema : SchemaModel) → IfSome result (IsTypeThere schema) }
    ensures none { (schema : SchemaModel) → IfNone result
        ((type : ExprType) → ¬ NegationTyped (expr_type schema operand.now) type) }
{
    match operand.number_operand() {
        Some(number) => Some(EdmType::of_number(negation_type(number))),
        None => None,
    }
}

/// Returns the type of `not` before an operand of this type. `None` where it is neither a truth value nor null.
pub fn not_type(operand: &EdmType) -> Option<EdmType>
    ensures typed { (schema : SchemaModel) → IfSome result
        (λ t. NotTyped (expr_type schema operand.now) (expr_type schema t)) }
    ensures there { (schema : SchemaModel) → IfSome result (IsTypeThere schema) }
    ensures none { (schema : SchemaModel) → IfNone result
        ((type : ExprType) → ¬ NotTyped (expr_type schema operand.now) type) }
{
    if operand.is_truth() {
        Some(BOOLEAN)
    } else {
        None
    }
}
