//! Which of two operands is an enumeration literal without its type.
ghost use Rattle.csdl_schema.specs.SchemaModel.{slots_of};
ghost use Rattle.odata_signatures.specs.OperatorTyped.{IsEquality};
ghost use Rattle.odata_typing.specs.private.OperandTexts.{IsOperandRead, left_side, right_side};

use super::binary_node::OperandTypes;
use super::resolved_text::{ResolvedText, resolved_number};
use csdl_schema::Schema;
use odata_checked_filter::NodeKind;
use odata_syntax::{BinaryOperator, ComparisonOperator};

/// What is read of two operands.
#[derive(Clone, Copy)]
pub(crate) enum OperandRead {
    /// Neither of them.
    Neither,
    /// The left one, as that number.
    Left(i64),
    /// The right one, as that number.
    Right(i64),
    /// One of them, which stands for no number.
    Unknown,
}

/// What is read of the operands.
pub(crate) fn operand_read(
    schema: &Schema,
    kind: NodeKind,
    operands: &OperandTypes<'_>,
) -> OperandRead
    ensures { IsOperandRead (slots_of schema.now) kind (left_side schema.now operands.now)
        (right_side schema.now operands.now) result }
{
    match kind {
        NodeKind::Binary { operator } => match operator {
            BinaryOperator::Comparison(comparison) => match comparison {
                ComparisonOperator::Eq => equality_read(schema, operator, operands),
                ComparisonOperator::Ne => equality_read(schema, operator, operands),
                ComparisonOperator::Gt | ComparisonOperator::Ge => OperandRead::Neither,
                ComparisonOperator::Lt | ComparisonOperator::Le => OperandRead::Neither,
            },
            BinaryOperator::Logical(_) | BinaryOperator::Arithmetic(_) => OperandRead::Neither,
        },
        NodeKind::Has => match resolved_number(schema, &operands.left, operands.right_quoted) {
            ResolvedText::Unread => OperandRead::Neither,
            ResolvedText::Number(number) => OperandRead::Right(number),
            ResolvedText::Unknown => OperandRead::Unknown,
        },
        _ => OperandRead::Neither,
    }
}

/// The same, of `eq` or `ne`: the right one by the type of the left one, or else the left one by that of the right one.
fn equality_read(
    schema: &Schema,
    operator: BinaryOperator,
    operands: &OperandTypes<'_>,
) -> OperandRead
    requires { IsEquality operator }
    ensures { IsOperandRead (slots_of schema.now) (NodeKind.Binary operator) (left_side schema.now operands.now)
        (right_side schema.now operands.now) result }
{
    match resolved_number(schema, &operands.left, operands.right_quoted) {
        ResolvedText::Number(number) => OperandRead::Right(number),
        ResolvedText::Unknown => OperandRead::Unknown,
        ResolvedText::Unread => match resolved_number(
            schema,
            &operands.right,
            operands.left_quoted,
        ) {
            ResolvedText::Unread => OperandRead::Neither,
            ResolvedText::Number(number) => OperandRead::Left(number),
            ResolvedText::Unknown => OperandRead::Unknown,
        },
    }
}
