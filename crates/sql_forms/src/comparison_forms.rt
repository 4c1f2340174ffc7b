//! Comparisons of operands that are no faults, and of those that may be one.
ghost use Rattle.std.specs.Prelude.{◌≡◌, ◌≢◌, ◌⊎◌, true, false, IsTrue, OnOk};
ghost use Rattle.edm_values.specs.Val.{null};
ghost use Rattle.odata_functions.specs.Comparison.{ComparesTrue};
ghost use Rattle.odata_syntax.specs.declared.binary_operator.ComparisonOperator.{ComparisonOperator};
ghost use Rattle.sql_tree.specs.declared.sql_node.SqlType.{SqlType};
ghost use Rattle.sql_draft.specs.declared.sql_context.Kind.{Kind};
ghost use Rattle.sql_forms.specs.declared.terms.Form.{Form};
ghost use Rattle.sql_outcomes.specs.ComparedSides.{AreOpposite};
ghost use Rattle.sql_forms.specs.private.Compared.{BesideNullHas, IsComparedIn};
ghost use Rattle.sql_outcomes.specs.private.FaultySides.{ComparisonHas};
ghost use Rattle.sql_outcomes.specs.ComparedSides.{IsEnough};
ghost use Rattle.sql_outcomes.specs.private.FaultySides.{IsGiven, compared_in};
ghost use Rattle.sql_forms.specs.private.Compared.{StrictHas};
ghost use Rattle.sql_forms.specs.Forms.{IsInForm};
ghost use Rattle.sql_outcomes.specs.private.ValueForms.{Itself, OrTruth};
ghost use Rattle.sql_draft.specs.Kinds.{AreCompared};
ghost use Rattle.sql_outcomes.specs.private.Alike.{AreAlike};
ghost use Rattle.sql_outcomes.specs.private.OperandValues.{IsPut, IsTested};
ghost use Rattle.sql_draft.specs.Translated.{IsTranslated, question_of};
ghost use Rattle.sql_draft.specs.World.{Puts};

use super::lift::bind_operands;
use super::operand_forms::{put_compared, put_is_null};
use odata_functions::comparisons_are_decided;
use odata_syntax::ComparisonOperator;
use sql_draft::{Draft, Operand, SqlContext};
use sql_tree::{SqlNode, SqlType};
use std::alloc::AllocError;

/// The type by which values of a type are compared: moments by their instants.
fn compared_in(value_type: SqlType) -> SqlType
    ensures { result ≡ compared_in value_type }
{
    match value_type {
        SqlType::Moment => SqlType::Instant,
        _ => value_type,
    }
}

/// The type by which an operand is compared.
pub(crate) fn compared_type(operand: &Operand) -> SqlType
    requires { (type : SqlType) × (operand.now.kind ≡ Kind.Value type) }
    ensures { IsComparedIn operand.now.kind result }
{
    compared_in(operand.wanted())
}

/// Puts the comparison of SQL, null where a side is null.
#[cycle(put)]
fn put_strict(
    context: &SqlContext<'_, '_>,
    draft: &mut Draft,
    operator: ComparisonOperator,
    left: &Operand,
    right: &Operand,
) -> Result<(), AllocError>
    requires translated { IsTranslated context.now }
    requires left { IsPut context.now.checked.now context.now.ranges.now left.now }
    requires right { IsPut context.now.checked.now context.now.ranges.now right.now }
    requires alike { AreAlike left.now.kind right.now.kind }
    ensures { OnOk result (Puts (question_of context.now) draft.old draft.new
        (StrictHas context.now.checked.now operator left.now right.now) Itself) }
{
    draft.put(SqlNode::Compare {
        operator,
        value_type: compared_type(left),
    })?;
    put_compared(context, draft, left)?;
    put_compared(context, draft, right)
}

/// Puts a comparison with null.
#[cycle(put)]
#[inline(never)]
fn put_beside_null(
    context: &SqlContext<'_, '_>,
    draft: &mut Draft,
    operator: ComparisonOperator,
    operand: &Operand,
) -> Result<(), AllocError>
    requires translated { IsTranslated context.now }
    requires tested { IsTested context.now.checked.now context.now.ranges.now operand.now }
    ensures { OnOk result (Puts (question_of context.now) draft.old draft.new
        (BesideNullHas context.now.checked.now operator operand.now) (OrTruth Itself)) }
{
    match operator {
        ComparisonOperator::Gt | ComparisonOperator::Lt => draft.put(SqlNode::Truth {
            value: false,
        }),
        ComparisonOperator::Ne => {
            draft.put(SqlNode::Not)?;
            put_is_null(context, draft, operand)
        }
        _ => put_is_null(context, draft, operand),
    }
}

/// Puts whether a comparison is true, of two operands that are no faults.
#[cycle(put)]
pub(crate) fn put_comparison(
    context: &SqlContext<'_, '_>,
    draft: &mut Draft,
    operator: ComparisonOperator,
    left: &Operand,
    right: &Operand,
) -> Result<(), AllocError>
    requires translated { IsTranslated context.now }
    requires left { IsTested context.now.checked.now context.now.ranges.now left.now }
    requires right { IsTested context.now.checked.now context.now.ranges.now right.now }
    requires compared { AreCompared left.now.kind right.now.kind }
    ensures { OnOk result (Puts (question_of context.now) draft.old draft.new
        (ComparisonHas context.now.checked.now operator left.now right.now) (OrTruth Itself)) }
{
    if left.is_null() {
        return put_beside_null(context, draft, operator, right);
    }
    if right.is_null() {
        return put_beside_null(context, draft, operator, left);
    }
    if left.range.may_be_null {
        if right.range.may_be_null {
            return put_of_nullable(context, draft, operator, left, right);
        }
        return put_of_one(context, draft, operator, left, right);
    }
    if right.range.may_be_null {
        return put_of_one(context, draft, operator, left, right);
    }
    put_strict(context, draft, operator, left, right)
}

/// The same, of two operands one of which is not null.
#[cycle(put)]
#[inline(never)]
fn put_of_one(
    context: &SqlContext<'_, '_>,
    draft: &mut Draft,
    operator: ComparisonOperator,
    left: &Operand,
    right: &Operand,
) -> Result<(), AllocError>
    requires translated { IsTranslated context.now }
    requires left { IsPut context.now.checked.now context.now.ranges.now left.now }
    requires right { IsPut context.now.checked.now context.now.ranges.now right.now }
    requires alike { AreAlike left.now.kind right.now.kind }
    requires one { IsGiven left.now ⊎ IsGiven right.now }
    ensures { OnOk result (Puts (question_of context.now) draft.old draft.new
        (ComparisonHas context.now.checked.now operator left.now right.now) (OrTruth Itself)) }
{
    comparisons_are_decided();
    if operator == ComparisonOperator::Ne {
        draft.put(SqlNode::Not)?;
        draft.put(SqlNode::IsTrue)?;
        return put_strict(context, draft, ComparisonOperator::Eq, left, right);
    }
    draft.put(SqlNode::IsTrue)?;
    put_strict(context, draft, operator, left, right)
}

/// The same, of two operands that may be null.
#[cycle(put)]
#[inline(never)]
fn put_of_nullable(
    context: &SqlContext<'_, '_>,
    draft: &mut Draft,
    operator: ComparisonOperator,
    left: &Operand,
    right: &Operand,
) -> Result<(), AllocError>
    requires translated { IsTranslated context.now }
    requires left { IsPut context.now.checked.now context.now.ranges.now left.now }
    requires right { IsPut context.now.checked.now context.now.ranges.now right.now }
    requires alike { AreAlike left.now.kind right.now.kind }
    ensures { OnOk result (Puts (question_of context.now) draft.old draft.new
        (ComparisonHas context.now.checked.now operator left.now right.now) (OrTruth Itself)) }
{
    comparisons_are_decided();
    match operator {
        ComparisonOperator::Eq => put_same(context, draft, left, right),
        ComparisonOperator::Ne => {
            draft.put(SqlNode::Not)?;
            put_same(context, draft, left, right)
        }
        ComparisonOperator::Gt | ComparisonOperator::Lt => {
            draft.put(SqlNode::IsTrue)?;
            put_strict(context, draft, operator, left, right)
        }
        ComparisonOperator::Ge | ComparisonOperator::Le => {
            put_or_nulls(context, draft, operator, left, right)
        }
    }
}

#[cycle(put)]
fn put_same(
    context: &SqlContext<'_, '_>,
    draft: &mut Draft,
    left: &Operand,
    right: &Operand,
) -> Result<(), AllocError>
    requires translated { IsTranslated context.now }
    requires left { IsPut context.now.checked.now context.now.ranges.now left.now }
    requires right { IsPut context.now.checked.now context.now.ranges.now right.now }
    requires alike { AreAlike left.now.kind right.now.kind }
    ensures { OnOk result (Puts (question_of context.now) draft.old draft.new
        (ComparisonHas context.now.checked.now ComparisonOperator.Eq left.now right.now) (OrTruth Itself)) }
{
    comparisons_are_decided();
    draft.put(SqlNode::Same {
        value_type: compared_type(left),
    })?;
    put_compared(context, draft, left)?;
    put_compared(context, draft, right)
}

/// Puts whether the comparison is true or both sides are null.
#[cycle(put)]
#[inline(never)]
fn put_or_nulls(
    context: &SqlContext<'_, '_>,
    draft: &mut Draft,
    operator: ComparisonOperator,
    left: &Operand,
    right: &Operand,
) -> Result<(), AllocError>
    requires translated { IsTranslated context.now }
    requires left { IsPut context.now.checked.now context.now.ranges.now left.now }
    requires right { IsPut context.now.checked.now context.now.ranges.now right.now }
    requires alike { AreAlike left.now.kind right.now.kind }
    requires of_nulls { ComparesTrue operator null null }
    requires other { operator ≢ ComparisonOperator.Ne }
    ensures { OnOk result (Puts (question_of context.now) draft.old draft.new
        (ComparisonHas context.now.checked.now operator left.now right.now) (OrTruth Itself)) }
{
    let lifted = bind_operands(context, draft, &[*left, *right], true)?;
    let (first, second) = (lifted.first(), lifted.second());
    lifted.open(draft)?;
    draft.put(SqlNode::Or)?;
    draft.put(SqlNode::IsTrue)?;
    put_strict(context, draft, operator, &first, &second)?;
    draft.put(SqlNode::And)?;
    put_is_null(context, draft, &first)?;
    put_is_null(context, draft, &second)?;
    lifted.close(context, draft)
}

/// Whether the comparison of SQL is true exactly where that of the filter is.
fn is_strict_enough(operator: ComparisonOperator, left: &Operand, right: &Operand) -> bool
    ensures { IsTrue result → (left.now.kind ≢ Kind.Null) × (right.now.kind ≢ Kind.Null)
        × IsEnough operator left.now.range.may_be_null right.now.range.may_be_null }
{
    if left.is_null() || right.is_null() {
        return false;
    }
    let one_holds = !left.range.may_be_null || !right.range.may_be_null;
    match operator {
        ComparisonOperator::Gt | ComparisonOperator::Lt => true,
        ComparisonOperator::Ne => !left.range.may_be_null && !right.range.may_be_null,
        _ => one_holds,
    }
}

/// Puts a condition that is true exactly where a comparison is, of operands that are no faults.
#[cycle(put)]
pub(crate) fn put_kept_comparison(
    context: &SqlContext<'_, '_>,
    draft: &mut Draft,
    operator: ComparisonOperator,
    left: &Operand,
    right: &Operand,
) -> Result<(), AllocError>
    requires translated { IsTranslated context.now }
    requires left { IsTested context.now.checked.now context.now.ranges.now left.now }
    requires right { IsTested context.now.checked.now context.now.ranges.now right.now }
    requires compared { AreCompared left.now.kind right.now.kind }
    ensures { OnOk result (Puts (question_of context.now) draft.old draft.new
        (ComparisonHas context.now.checked.now operator left.now right.now) (OrTruth (IsInForm Form.Keeps))) }
{
    if is_strict_enough(operator, left, right) {
        put_strict(context, draft, operator, left, right)
    } else {
        put_comparison(context, draft, operator, left, right)
    }
}

/// The operator that is true where this one is false, of two values that are not null.
fn opposite(operator: ComparisonOperator) -> ComparisonOperator
    ensures { AreOpposite operator result }
{
    comparisons_are_decided();
    match operator {
        ComparisonOperator::Eq => ComparisonOperator::Ne,
        ComparisonOperator::Ne => ComparisonOperator::Eq,
        ComparisonOperator::Gt => ComparisonOperator::Le,
        ComparisonOperator::Ge => ComparisonOperator::Lt,
        ComparisonOperator::Lt => ComparisonOperator::Ge,
        ComparisonOperator::Le => ComparisonOperator::Gt,
    }
}

/// Puts a condition that is true exactly where a comparison is false, of operands that are no faults.
#[cycle(put)]
pub(crate) fn put_denied_comparison(
    context: &SqlContext<'_, '_>,
    draft: &mut Draft,
    operator: ComparisonOperator,
    left: &Operand,
    right: &Operand,
) -> Result<(), AllocError>
    requires translated { IsTranslated context.now }
    requires left { IsTested context.now.checked.now context.now.ranges.now left.now }
    requires right { IsTested context.now.checked.now context.now.ranges.now right.now }
    requires compared { AreCompared left.now.kind right.now.kind }
    ensures { OnOk result (Puts (question_of context.now) draft.old draft.new
        (ComparisonHas context.now.checked.now operator left.now right.now) (OrTruth (IsInForm Form.Denies))) }
{
    if !left.range.may_be_null && !right.range.may_be_null && !left.is_null() && !right.is_null() {
        return put_strict(context, draft, opposite(operator), left, right);
    }
    draft.put(SqlNode::Not)?;
    put_comparison(context, draft, operator, left, right)
}
