//! Nodes over one operand: `-`, `not`, `/$count` and `/any()`.
ghost use Rattle.std.specs.Prelude.{◌≡◌, ◌∷◌, [], IfNone, IfSome};
ghost use Rattle.odata_syntax.specs.Tree.{Tree};
ghost use Rattle.csdl_schema.specs.ExprType.{ExprType};
ghost use Rattle.csdl_schema.specs.SchemaModel.{SchemaModel};
ghost use Rattle.odata_signatures.specs.TypeThere.{IsTypeThere};
ghost use Rattle.odata_signatures.specs.TypeView.{expr_type};
ghost use Rattle.odata_typing.specs.private.Judging.{AreChildren, IsNodeJudged};
ghost use Rattle.odata_typing.specs.private.CheckContexts.{IsNodeReady};

use super::check_context::{CheckContext, Judged};
use super::judged_list::Walk;
use super::laws_below::laws_below;
use odata_checked_filter::NodeKind;
use odata_signatures::{EdmType, TypeFaultCode, any_item_type, count_type, negated_type, not_type};

/// What is asked of the one operand.
#[derive(Clone, Copy)]
pub(crate) enum Unary {
    Negation,
    Not,
    Count,
    AnyItem,
}

ghost use Rattle.odata_typing.specs.private.Forms.{UnaryTyped, unary_code, unary_kind, unary_shape};

/// The node over its operand.
#[inline(always)]
pub(crate) fn checked_unary(
    context: &CheckContext<'_>,
    judged: &Judged<'_>,
    unary: Unary,
    walk: &mut Walk,
) -> bool
    requires ready { IsNodeReady context.now walk.old judged.now }
    requires operand { (operand : Tree) × AreChildren context.now walk.old judged.now (operand ∷ []) }
    ensures { (operand : Tree) → AreChildren context.now walk.old judged.now (operand ∷ [])
        → IsNodeJudged context.now judged.now (unary_shape unary operand) walk.old walk.new result }
{
    laws_below();
    let edm_type = unary_type(unary, walk.type_at(judged.number + 1));
    walk.put_typed(judged, kind_of(unary), edm_type, code_of(unary))
}

/// The type over an operand of that type. `None` where it may not stand there.
#[inline(always)]
fn unary_type(unary: Unary, operand: &EdmType) -> Option<EdmType>
    ensures typed { (schema : SchemaModel) → IfSome result
        (λ t. UnaryTyped unary (expr_type schema operand.now) (expr_type schema t)) }
    ensures there { (schema : SchemaModel) → IfSome result (IsTypeThere schema) }
    ensures none { (schema : SchemaModel) → IfNone result
        ((type : ExprType) → ¬ UnaryTyped unary (expr_type schema operand.now) type) }
{
    match unary {
        Unary::Negation => negated_type(operand),
        Unary::Not => not_type(operand),
        Unary::Count => count_type(operand),
        Unary::AnyItem => any_item_type(operand),
    }
}

#[inline(always)]
fn kind_of(unary: Unary) -> NodeKind
    ensures { result ≡ unary_kind unary }
{
    match unary {
        Unary::Negation => NodeKind::Neg,
        Unary::Not => NodeKind::Not,
        Unary::Count => NodeKind::Count,
        Unary::AnyItem => NodeKind::AnyItem,
    }
}

/// Why an operand may not stand there.
#[inline(always)]
fn code_of(unary: Unary) -> TypeFaultCode
    ensures { result ≡ unary_code unary }
{
    match unary {
        Unary::Negation | Unary::Not => TypeFaultCode::OperandTypes,
        Unary::Count | Unary::AnyItem => TypeFaultCode::NotCollection,
    }
}
