//! Arithmetic, whose result is bound to the type of its node.
ghost use Rattle.std.specs.Prelude.{◌↔◌, ◌∷◌, [], ◌<◌, IsTrue, OnOk, length, pos};
ghost use Rattle.edm_values.specs.NumberTypes.{IsNumberType};
ghost use Rattle.edm_values.specs.declared.primitive.PrimitiveType.{PrimitiveType};
ghost use Rattle.odata_functions.specs.Arithmetic.{IsDividing};
ghost use Rattle.odata_ranges.specs.Reach.{HoldsNumber, IsBounded};
ghost use Rattle.sql_tree.specs.declared.sql_node.Carrier.{Carrier};
ghost use Rattle.sql_tree.specs.declared.sql_node.SqlNode.{SqlNode};
ghost use Rattle.sql_outcomes.specs.Calculations.{CalculatedHas, IsComputedIn};
ghost use Rattle.sql_forms.specs.private.Calculated.{CheckedHas, DivisorHas, WideHas, ZeroHas};
ghost use Rattle.sql_outcomes.specs.private.ValueForms.{Itself};
ghost use Rattle.sql_draft.specs.Growth.{Grows};
ghost use Rattle.sql_outcomes.specs.private.OperandValues.{IsPut};
ghost use Rattle.sql_draft.specs.Translated.{IsTranslated, question_of};
ghost use Rattle.sql_draft.specs.World.{Puts};

use super::lift::bind_operands;
use super::operand_forms::put_operand;
use edm_values::Prim;
use odata_functions::{ArithFault, divisions_are_unique};
use odata_ranges::{Range, is_safe};
use odata_syntax::{ArithmeticOperator, ComparisonOperator};
use sql_draft::{Draft, Operand, SqlContext};
use sql_tree::{Carrier, Digit, FieldType, SqlNode, SqlType};
use std::alloc::AllocError;

/// The type in which the numbers of the node at an index are computed; Int64, which has them all, of a node that is of
/// no primitive type.
fn number_type(context: &SqlContext<'_, '_>, place: usize) -> Prim
    requires there { place < length context.now.checked.now.list.nodes }
    requires number { (type : PrimitiveType) × IsComputedIn context.now.checked.now place type }
    ensures { IsComputedIn context.now.checked.now place result }
{
    let Some(value_type) = context.value_type(place) else {
        return Prim::Int64;
    };
    match value_type {
        FieldType::Prim(prim) => prim,
        FieldType::Enum(_) => Prim::Int64,
    }
}

fn is_dividing(operator: ArithmeticOperator) -> bool
    ensures { IsTrue result ↔ IsDividing operator }
{
    match operator {
        ArithmeticOperator::Div => true,
        ArithmeticOperator::Mod => true,
        _ => false,
    }
}

fn may_divide_by_zero(operator: ArithmeticOperator, divisor: Range) -> bool
    ensures { IsTrue result ↔ (IsDividing operator × HoldsNumber divisor (pos 0)) }
{
    is_dividing(operator) && divisor.holds_zero()
}

/// Puts what the operator of the node at an index makes of two operands.
#[cycle(put)]
pub(crate) fn put_calculated(
    context: &SqlContext<'_, '_>,
    draft: &mut Draft,
    place: usize,
    operator: ArithmeticOperator,
    left: &Operand,
    right: &Operand,
) -> Result<(), AllocError>
    requires translated { IsTranslated context.now }
    requires left { IsPut context.now.checked.now context.now.ranges.now left.now }
    requires right { IsPut context.now.checked.now context.now.ranges.now right.now }
    requires there { place < length context.now.checked.now.list.nodes }
    requires number { (type : PrimitiveType) × IsComputedIn context.now.checked.now place type }
    requires bounded_left { IsBounded left.now.range }
    requires bounded_right { IsBounded right.now.range }
    ensures { OnOk result (Puts (question_of context.now) draft.old draft.new
        (CalculatedHas context.now.checked.now operator place left.now right.now) Itself) }
{
    let prim = number_type(context, place);
    let safe = is_safe(operator, prim, left.range, right.range);
    let lifted = bind_operands(context, draft, &[*left, *right], !safe)?;
    lifted.open(draft)?;
    lifted.put_faults(draft, Some(Carrier::Number))?;
    let (first, second) = (lifted.first(), lifted.second());
    if safe {
        draft.put(SqlNode::Plain { operator })?;
        put_operand(context, draft, &first, SqlType::Whole)?;
        put_operand(context, draft, &second, SqlType::Whole)?;
        return lifted.close(context, draft);
    }
    put_checked(context, draft, operator, prim, &first, &second)?;
    lifted.close(context, draft)
}

/// Puts the result where it lies within the type, else the fault.
#[cycle(put)]
#[inline(never)]
fn put_checked(
    context: &SqlContext<'_, '_>,
    draft: &mut Draft,
    operator: ArithmeticOperator,
    prim: Prim,
    left: &Operand,
    right: &Operand,
) -> Result<(), AllocError>
    requires translated { IsTranslated context.now }
    requires left { IsPut context.now.checked.now context.now.ranges.now left.now }
    requires right { IsPut context.now.checked.now context.now.ranges.now right.now }
    requires number { IsNumberType prim }
    ensures { OnOk result (Puts (question_of context.now) draft.old draft.new
        (CheckedHas context.now.checked.now operator prim left.now right.now) Itself) }
{
    divisions_are_unique();
    let by_zero = may_divide_by_zero(operator, right.range);
    if by_zero {
        draft.put(SqlNode::Case)?;
        draft.put(SqlNode::And)?;
        put_is_zero(context, draft, right)?;
        draft.put(SqlNode::Not)?;
        draft.put(SqlNode::IsNull)?;
        put_operand(context, draft, left, SqlType::Whole)?;
        put_fault(draft, ArithFault::DivideByZero)?;
    }
    draft.put(SqlNode::Case)?;
    draft.put(SqlNode::Not)?;
    draft.put(SqlNode::Within { prim })?;
    put_unbounded(context, draft, operator, left, right, by_zero)?;
    put_fault(draft, ArithFault::Overflow)?;
    put_unbounded(context, draft, operator, left, right, by_zero)
}

fn put_fault(draft: &mut Draft, fault: ArithFault) -> Result<(), AllocError>
    ensures { OnOk result (Grows draft.old draft.new (SqlNode.Fault Carrier.Number fault ∷ [])) }
{
    draft.put(SqlNode::Fault {
        carrier: Carrier::Number,
        fault,
    })
}

#[cycle(put)]
fn put_is_zero(
    context: &SqlContext<'_, '_>,
    draft: &mut Draft,
    operand: &Operand,
) -> Result<(), AllocError>
    requires translated { IsTranslated context.now }
    requires put { IsPut context.now.checked.now context.now.ranges.now operand.now }
    ensures { OnOk result (Puts (question_of context.now) draft.old draft.new
        (ZeroHas context.now.checked.now operand.now) Itself) }
{
    draft.put(SqlNode::Compare {
        operator: ComparisonOperator::Eq,
        value_type: SqlType::Whole,
    })?;
    put_operand(context, draft, operand, SqlType::Whole)?;
    draft.put_number(Digit::Zero)
}

/// Puts the whole number that the operator makes, null instead of a divisor 0.
#[cycle(put)]
#[inline(never)]
fn put_unbounded(
    context: &SqlContext<'_, '_>,
    draft: &mut Draft,
    operator: ArithmeticOperator,
    left: &Operand,
    right: &Operand,
    by_zero: bool,
) -> Result<(), AllocError>
    requires translated { IsTranslated context.now }
    requires left { IsPut context.now.checked.now context.now.ranges.now left.now }
    requires right { IsPut context.now.checked.now context.now.ranges.now right.now }
    ensures { OnOk result (Puts (question_of context.now) draft.old draft.new
        (WideHas context.now.checked.now operator left.now (DivisorHas by_zero context.now.checked.now right.now)) Itself) }
{
    draft.put(SqlNode::Wide { operator })?;
    put_operand(context, draft, left, SqlType::Whole)?;
    if by_zero {
        draft.put(SqlNode::Case)?;
        put_is_zero(context, draft, right)?;
        draft.put(SqlNode::Null {
            value_type: SqlType::Whole,
        })?;
        return put_operand(context, draft, right, SqlType::Whole);
    }
    put_operand(context, draft, right, SqlType::Whole)
}
