//! Nodes of truth values that evaluate to no fault, as truth values of SQL.
ghost use Rattle.std.specs.Prelude.{◌≡◌, ◌<◌, IfNone, IfSome, IsSomeAnd, OnOk, length, slice_get};
ghost use Rattle.odata_checked_filter.specs.declared.checked_node.NodeKind.{NodeKind};
ghost use Rattle.sql_forms.specs.declared.terms.Form.{Form};
ghost use Rattle.sql_outcomes.specs.Calls.{FlagsHave};
ghost use Rattle.sql_forms.specs.private.Joins.{IsJoin};
ghost use Rattle.sql_outcomes.specs.private.FaultySides.{ComparesNothing};
ghost use Rattle.sql_outcomes.specs.ComparedSides.{IsComparisonOf};
ghost use Rattle.sql_forms.specs.Forms.{IsInForm};
ghost use Rattle.sql_outcomes.specs.private.ValueForms.{Itself};
ghost use Rattle.sql_outcomes.specs.private.OperandValues.{IsPut};
ghost use Rattle.sql_draft.specs.Translated.{IsKindAt, IsTranslated, IsTruthAt, question_of};
ghost use Rattle.sql_outcomes.specs.private.NodesThere.{IsBooleanAt, IsFaultless, IsOtherKind};
ghost use Rattle.sql_draft.specs.World.{OfPlace, Puts};

use super::call_forms::{is_kind, put_call};
use super::comparison_forms::put_comparison;
use super::in_path::put_in_path;
use super::lambda::put_lambda;
use super::list_forms::put_list;
use super::operand_forms::put_operand;
use super::path_value::put_path_value;
use super::terms::{Form, connective_at, put_joined, terms_of};
use super::value_forms::put_literal;
use edm_values::Prim;
use odata_checked_filter::NodeKind;
use odata_meaning::typed_trees_end_once_on_entities;
use odata_signatures::{
    literals_have_one_value, quoted_texts_have_one_number, trees_have_one_type,
};
use odata_syntax::{BinaryOperator, ComparisonOperator, LogicalOperator};
use sql_draft::{Draft, Kind, Operand, SqlContext, put_path};
use sql_tree::{Digit, FieldType, SqlNode, SqlType};
use std::alloc::AllocError;

/// The node that joins two truth values.
pub(crate) fn join_of(connective: LogicalOperator) -> SqlNode
    ensures { IsJoin Form.Truth result connective }
{
    match connective {
        LogicalOperator::And => SqlNode::And,
        LogicalOperator::Or => SqlNode::Or,
    }
}

/// The operands of a comparison, if the node at an index is one.
pub(crate) fn compared_at(
    context: &SqlContext<'_, '_>,
    place: usize,
) -> Option<(ComparisonOperator, Operand, Operand)>
    requires translated { IsTranslated context.now }
    requires there { place < length context.now.checked.now.list.nodes }
    ensures some { IfSome result (λ c. IsComparisonOf (question_of context.now) context.now.ranges.now place c.0 c.1 c.2) }
    ensures none { IfNone result (IsSomeAnd (slice_get context.now.checked.now.list.nodes place)
        (λ node. ComparesNothing node.kind)) }
{
    typed_trees_end_once_on_entities();
    trees_have_one_type();
    quoted_texts_have_one_number();
    match context.node(place).kind {
        NodeKind::Binary { operator } => match operator {
            BinaryOperator::Comparison(comparison) => Some((
                comparison,
                Operand::side(context, place + 1),
                Operand::side(context, context.second(place)),
            )),
            _ => None,
        },
        _ => None,
    }
}

/// Puts the value of a node of type Boolean or Null that evaluates to no fault.
#[cycle(put)]
pub(crate) fn put_truth(
    context: &SqlContext<'_, '_>,
    draft: &mut Draft,
    place: usize,
) -> Result<(), AllocError>
    requires translated { IsTranslated context.now }
    requires truth { IsTruthAt context.now.checked.now place }
    requires faultless { IsFaultless context.now.ranges.now place }
    ensures { OnOk result (Puts (question_of context.now) draft.old draft.new
        (OfPlace context.now.checked.now place) (IsInForm Form.Truth)) }
{
    typed_trees_end_once_on_entities();
    trees_have_one_type();
    literals_have_one_value();
    if is_kind(context.kind(place), Kind::Null) {
        return draft.put(SqlNode::Null {
            value_type: SqlType::Truth,
        });
    }
    if let Some((operator, left, right)) = compared_at(context, place) {
        return put_comparison(context, draft, operator, &left, &right);
    }
    if let Some(connective) = connective_at(context, place) {
        let terms = terms_of(draft.alloc, context, connective, place)?;
        return put_joined(
            context,
            draft,
            Form::Truth,
            &join_of(connective),
            terms.as_slice(),
        );
    }
    match context.node(place).kind {
        NodeKind::Literal { value, .. } => put_literal(context, draft, value),
        NodeKind::Not => {
            draft.put(SqlNode::Not)?;
            put_truth(context, draft, place + 1)
        }
        NodeKind::Call { function } => put_call(context, draft, place, function),
        kind => put_other_truth(context, draft, place, kind),
    }
}

/// The same, of a node of a collection, of flags or of a list, or of a path.
#[cycle(put)]
#[inline(never)]
fn put_other_truth(
    context: &SqlContext<'_, '_>,
    draft: &mut Draft,
    place: usize,
    kind: NodeKind,
) -> Result<(), AllocError>
    requires translated { IsTranslated context.now }
    requires kind { IsKindAt context.now.checked.now place kind }
    requires other { IsOtherKind kind }
    requires boolean { IsBooleanAt context.now.checked.now place }
    requires faultless { IsFaultless context.now.ranges.now place }
    ensures { OnOk result (Puts (question_of context.now) draft.old draft.new
        (OfPlace context.now.checked.now place) (IsInForm Form.Truth)) }
{
    typed_trees_end_once_on_entities();
    trees_have_one_type();
    quoted_texts_have_one_number();
    match kind {
        NodeKind::AnyItem => put_any_item(context, draft, place),
        NodeKind::Has => {
            let right = Operand::side(context, context.second(place));
            put_has(context, draft, &Operand::at(context, place + 1), &right)
        }
        NodeKind::InList => put_list(context, draft, place),
        NodeKind::InPath => put_in_path(context, draft, place),
        NodeKind::Lambda { quantifier } => put_lambda(context, draft, place, quantifier),
        _ => put_path_value(context, draft, place, FieldType::Prim(Prim::Bool)),
    }
}

/// Puts whether a collection has a member, null for null.
#[inline(never)]
fn put_any_item(
    context: &SqlContext<'_, '_>,
    draft: &mut Draft,
    place: usize,
) -> Result<(), AllocError>
    requires translated { IsTranslated context.now }
    requires kind { IsKindAt context.now.checked.now place NodeKind.AnyItem }
    ensures { OnOk result (Puts (question_of context.now) draft.old draft.new
        (OfPlace context.now.checked.now place) (IsInForm Form.Truth)) }
{
    let path = put_path(context, draft, place + 1)?;
    draft.put(SqlNode::Compare {
        operator: ComparisonOperator::Gt,
        value_type: SqlType::Whole,
    })?;
    draft.put(SqlNode::Count { path })?;
    draft.put_number(Digit::Zero)
}

/// Puts `has`, null with a null.
#[cycle(put)]
#[inline(never)]
fn put_has(
    context: &SqlContext<'_, '_>,
    draft: &mut Draft,
    left: &Operand,
    right: &Operand,
) -> Result<(), AllocError>
    requires translated { IsTranslated context.now }
    requires left { IsPut context.now.checked.now context.now.ranges.now left.now }
    requires right { IsPut context.now.checked.now context.now.ranges.now right.now }
    ensures { OnOk result (Puts (question_of context.now) draft.old draft.new
        (FlagsHave context.now.checked.now left.now right.now) Itself) }
{
    draft.put(SqlNode::HasBits)?;
    put_operand(context, draft, left, SqlType::Member)?;
    put_operand(context, draft, right, SqlType::Member)
}
