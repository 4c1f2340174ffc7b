//! Nodes between two operands: operators, `has`, and `in` before a path.
ghost use Rattle.std.specs.Prelude.{◌≡◌, ◌<◌, ◌∷◌, ℕ, [], IfNone, IfSome, IsTrue, List, Option, length};
ghost use Rattle.odata_syntax.specs.Tree.{Tree, binary};
ghost use Rattle.csdl_schema.specs.ExprType.{ExprType};
ghost use Rattle.csdl_schema.specs.SchemaModel.{SchemaModel};
ghost use Rattle.odata_signatures.specs.CollectionTyped.{IsCollection};
ghost use Rattle.odata_signatures.specs.QuotedNumber.{IsResolvedBy};
ghost use Rattle.odata_signatures.specs.Side.{quoting};
ghost use Rattle.odata_signatures.specs.TypeThere.{IsTypeThere};
ghost use Rattle.odata_signatures.specs.TypeView.{expr_type};
ghost use Rattle.odata_typing.specs.private.Items.{IsUnreadLeft};
ghost use Rattle.odata_typing.specs.private.Judging.{AreChildren, IsNodeJudged};
ghost use Rattle.odata_typing.specs.private.CheckContexts.{IsNodeReady};

use super::check_context::{CheckContext, Judged};
use super::judged_list::Walk;
use super::laws_below::laws_below;
use super::operand_text::{OperandRead, operand_read};
use csdl_schema::Schema;
use odata_checked_filter::NodeKind;
use odata_signatures::{
    BOOLEAN, EdmType, TypeFaultCode, ValueType, binary_type, has_type, in_path_type,
};
use odata_syntax::{BinaryOperator, ComparisonOperator};

/// The types of the two operands, and what they quote.
#[derive(Clone, Copy)]
pub(crate) struct OperandTypes<'n> {
    pub(crate) left: EdmType,
    pub(crate) right: EdmType,
    pub(crate) left_quoted: Option<&'n str>,
    pub(crate) right_quoted: Option<&'n str>,
}

ghost use Rattle.odata_typing.specs.private.Forms.{InfixByTypes, InfixReason, IsInfix, infix_shape};
ghost use Rattle.odata_typing.specs.private.OperandTexts.{OneIsRead};
ghost use Rattle.odata_typing.specs.private.Walks.{IsReadPut};

/// An operator between its operands.
#[inline(always)]
pub(crate) fn checked_operator(
    context: &CheckContext<'_>,
    judged: &Judged<'_>,
    operator: BinaryOperator,
    walk: &mut Walk,
) -> bool
    requires ready { IsNodeReady context.now walk.old judged.now }
    requires operands { (l : Tree) × (r : Tree) × AreChildren context.now walk.old judged.now (l ∷ r ∷ []) }
    ensures { (l r : Tree) → AreChildren context.now walk.old judged.now (l ∷ r ∷ [])
        → IsNodeJudged context.now judged.now (binary operator l r) walk.old walk.new result }
{
    laws_below();
    let left = judged.number + 1;
    let left_type = walk.type_at(left);
    let right_type = walk.type_at(walk.stop_at(left));
    if may_be_read(operator, left_type, right_type) {
        return checked_infix(context, judged, NodeKind::Binary { operator }, walk);
    }
    let edm_type = binary_type(context.schema, operator, left_type, right_type);
    let kind = NodeKind::Binary { operator };
    walk.put_typed(judged, kind, edm_type, TypeFaultCode::OperandTypes)
}

/// Whether one of two operands of these types may be an enumeration literal without its type.
#[inline(always)]
fn may_be_read(operator: BinaryOperator, left: &EdmType, right: &EdmType) -> bool
    ensures { (schema : SchemaModel) (l r : Option (List ℕ)) → ¬ IsTrue result
        → ¬ OneIsRead IsResolvedBy (NodeKind.Binary operator) (quoting l (expr_type schema left.now))
        (quoting r (expr_type schema right.now)) }
{
    match operator {
        BinaryOperator::Comparison(comparison) => match comparison {
            ComparisonOperator::Eq | ComparisonOperator::Ne => {
                is_enumeration(left) || is_enumeration(right)
            }
            _ => false,
        },
        _ => false,
    }
}

/// Whether something is one value of an enumeration.
#[inline(always)]
pub(crate) fn is_enumeration(edm_type: &EdmType) -> bool
    ensures single { (schema : SchemaModel) → IsTrue result → ¬ IsCollection (expr_type schema edm_type.now) }
    ensures unread { (schema : SchemaModel) → ¬ IsTrue result → IsUnreadLeft (expr_type schema edm_type.now) }
{
    match edm_type {
        EdmType::Single(ValueType::Enum(_)) => true,
        EdmType::Single(ValueType::Prim(_)) => false,
        EdmType::Single(ValueType::Structured(_)) => false,
        EdmType::Null => false,
        EdmType::Collection(_) => false,
    }
}

/// The node between two operands, of which one may be a String literal that is read as an enumeration's.
#[inline(never)]
pub(crate) fn checked_infix(
    context: &CheckContext<'_>,
    judged: &Judged<'_>,
    kind: NodeKind,
    walk: &mut Walk,
) -> bool
    requires kind { IsInfix kind }
    requires ready { IsNodeReady context.now walk.old judged.now }
    requires operands { (l : Tree) × (r : Tree) × AreChildren context.now walk.old judged.now (l ∷ r ∷ []) }
    ensures { (l r : Tree) → AreChildren context.now walk.old judged.now (l ∷ r ∷ [])
        → IsNodeJudged context.now judged.now (infix_shape kind l r) walk.old walk.new result }
{
    laws_below();
    let left = judged.number + 1;
    let right = walk.stop_at(left);
    let types = OperandTypes {
        left: *walk.type_at(left),
        right: *walk.type_at(right),
        left_quoted: walk.quoted_at(left),
        right_quoted: walk.quoted_at(right),
    };
    let read = operand_read(context.schema, kind, &types);
    let edm_type = infix_type(context.schema, kind, &types);
    let code = reason_of(kind, &types.right);
    match read {
        OperandRead::Neither => walk.put_typed(judged, kind, edm_type, code),
        OperandRead::Left(number) => put_read(judged, kind, left, number, walk),
        OperandRead::Right(number) => put_read(judged, kind, right, number, walk),
        OperandRead::Unknown => walk.refuse(judged.node.span, TypeFaultCode::UnknownEnum),
    }
}

/// Gives the String literal at an index its number, and puts the node of that kind around it.
fn put_read(
    judged: &Judged<'_>,
    kind: NodeKind,
    literal: usize,
    number: i64,
    walk: &mut Walk,
) -> bool
    requires place { judged.now.number < length walk.old.list.nodes }
    requires literal { literal < length walk.old.list.nodes }
    ensures { IsReadPut walk.old judged.now kind literal number walk.new result }
{
    walk.put_number(literal, number) && walk.put_nameless(judged, kind, &BOOLEAN)
}

/// The type between operands of these types, by the types alone. `None` where they may not stand there.
fn infix_type(schema: &Schema, kind: NodeKind, types: &OperandTypes<'_>) -> Option<EdmType>
    requires left { IsTypeThere schema.now types.now.left }
    requires right { IsTypeThere schema.now types.now.right }
    ensures typed { IfSome result (λ t. InfixByTypes kind
        (expr_type schema.now types.now.left) (expr_type schema.now types.now.right) (expr_type schema.now t)) }
    ensures there { IfSome result (IsTypeThere schema.now) }
    ensures none { IfNone result ((type : ExprType) → ¬ InfixByTypes kind
        (expr_type schema.now types.now.left) (expr_type schema.now types.now.right) type) }
{
    match kind {
        NodeKind::Binary { operator } => binary_type(schema, operator, &types.left, &types.right),
        NodeKind::Has => has_type(schema, &types.left, &types.right),
        NodeKind::InPath => in_path_type(schema, &types.left, &types.right),
        _ => None,
    }
}

/// Why operands may not stand there, of which the right one has this type: a path after `in` has to lead to a
/// collection.
fn reason_of(kind: NodeKind, right: &EdmType) -> TypeFaultCode
    requires { IsInfix kind }
    ensures { (schema : SchemaModel) → InfixReason kind (expr_type schema right.now) result }
{
    match kind {
        NodeKind::InPath => match right {
            EdmType::Collection(_) => TypeFaultCode::OperandTypes,
            EdmType::Null | EdmType::Single(_) => TypeFaultCode::NotCollection,
        },
        _ => TypeFaultCode::OperandTypes,
    }
}
