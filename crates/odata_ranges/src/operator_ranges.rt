//! The ranges of nodes with one operand, and of those with two.
ghost use Rattle.std.specs.Prelude.{◌≡◌, IfNone, IfSome, IsFalse};
ghost use Rattle.edm_values.specs.NumberTypes.{IsNumberType};
ghost use Rattle.odata_checked_filter.specs.declared.checked_node.NodeKind.TheVariants.{Binary};
ghost use Rattle.odata_ranges.specs.Faults.{MakesNone};
ghost use Rattle.odata_ranges.specs.Reach.{IsBounded};
ghost use Rattle.odata_ranges.specs.declared.node_form.NodeForm.{NodeForm};
ghost use Rattle.odata_ranges.specs.private.NodeForm.{AreKnownAfter, HasForm, IsOwnRange};
ghost use Rattle.odata_ranges.specs.private.OperatorRanges.{HoldsArithmetic, HoldsOperator, IsNumericIn};
ghost use Rattle.odata_ranges.specs.private.Values.{IsNumeric};
ghost use Rattle.odata_signatures.specs.declared.edm_type.EdmType.{EdmType};
ghost use Rattle.odata_signatures.specs.declared.edm_type.ValueType.{ValueType};

use super::arithmetic_ranges::{calculated, either};
use super::bounds::MOST_MEMBERS;
use super::node_lookups::{node_at, range_in};
use super::range::Range;
use edm_values::Prim;
use odata_checked_filter::{Checked, CheckedNode, NodeKind};
use odata_meaning::typed_trees_end_once;
use odata_signatures::{EdmType, ValueType, trees_have_one_type};
use odata_syntax::{ArithmeticOperator, BinaryOperator};

/// The range of a node with one operand.
pub(crate) fn of_one(
    checked: &Checked<'_>,
    ranges: &[Range],
    place: usize,
    node: CheckedNode,
) -> Range
    requires form { HasForm checked.now place node NodeForm.One }
    requires known { AreKnownAfter checked.now place ranges.now }
    ensures { IsOwnRange checked.now ranges.now place node result }
{
    typed_trees_end_once();
    trees_have_one_type();
    let operand = range_in(ranges, place + 1);
    match node.kind {
        NodeKind::Count => Range::between(0, MOST_MEMBERS, operand.may_be_null),
        NodeKind::AnyItem => Range::plain(operand.may_be_null),
        NodeKind::Neg => {
            let zero = Range::plain(false);
            of_arithmetic(node.edm_type, ArithmeticOperator::Sub, zero, operand)
        }
        _ => operand,
    }
}

/// The range of a node with two operands.
pub(crate) fn of_two(
    checked: &Checked<'_>,
    ranges: &[Range],
    place: usize,
    node: CheckedNode,
) -> Range
    requires form { HasForm checked.now place node NodeForm.Two }
    requires known { AreKnownAfter checked.now place ranges.now }
    ensures { IsOwnRange checked.now ranges.now place node result }
{
    typed_trees_end_once();
    trees_have_one_type();
    let next = node_at(checked, place + 1);
    let left = range_in(ranges, place + 1);
    let right = range_in(ranges, next.stop);
    let faults = either(left.may_fault, right.may_fault);
    let nulls = either(left.may_be_null, right.may_be_null);
    match node.kind {
        NodeKind::Binary { operator } => of_operator(operator, node.edm_type, left, right),
        NodeKind::Has => truth(nulls, faults),
        NodeKind::InPath => truth(right.may_be_null, faults),
        // `any` and `all`.
        _ => truth(left.may_be_null, faults),
    }
}

/// Truth values.
fn truth(may_be_null: bool, may_fault: bool) -> Range
    ensures bounded { IsBounded result }
    ensures null { result.may_be_null ≡ may_be_null }
    ensures fault { result.may_fault ≡ may_fault }
{
    Range {
        may_fault,
        may_be_null,
        low: 0,
        high: 0,
    }
}

/// The range of an operator between two ranges, which computes in that type.
fn of_operator(operator: BinaryOperator, edm_type: EdmType, left: Range, right: Range) -> Range
    requires left { IsBounded left }
    requires right { IsBounded right }
    requires numeric { IsNumericIn operator edm_type }
    ensures bounded { IsBounded result }
    ensures holds { HoldsOperator operator edm_type left right result }
    ensures quiet { MakesNone (Binary operator) edm_type → IsFalse left.may_fault → IsFalse right.may_fault
        → IsFalse result.may_fault }
{
    let faults = either(left.may_fault, right.may_fault);
    let nulls = either(left.may_be_null, right.may_be_null);
    match operator {
        BinaryOperator::Logical(_) => truth(nulls, faults),
        BinaryOperator::Comparison(_) => truth(false, faults),
        BinaryOperator::Arithmetic(arithmetic) => of_arithmetic(edm_type, arithmetic, left, right),
    }
}

/// The same of arithmetic. Of the type of null there is null alone.
fn of_arithmetic(
    edm_type: EdmType,
    operator: ArithmeticOperator,
    left: Range,
    right: Range,
) -> Range
    requires left { IsBounded left }
    requires right { IsBounded right }
    requires numeric { IsNumeric edm_type }
    ensures bounded { IsBounded result }
    ensures holds { HoldsArithmetic operator edm_type left right result }
    ensures quiet { edm_type ≡ EdmType.Null → IsFalse left.may_fault → IsFalse right.may_fault
        → IsFalse result.may_fault }
{
    let faults = either(left.may_fault, right.may_fault);
    match number_type(edm_type) {
        Some(prim) => calculated(operator, prim, left, right).with_faults(faults),
        None => truth(true, faults),
    }
}

/// The type in which numbers are computed; `None` for that of null.
fn number_type(edm_type: EdmType) -> Option<Prim>
    requires { IsNumeric edm_type }
    ensures some { IfSome result (λ prim. edm_type ≡ EdmType.Single (ValueType.Prim prim)) }
    ensures number { IfSome result IsNumberType }
    ensures none { IfNone result (edm_type ≡ EdmType.Null) }
{
    match edm_type {
        EdmType::Single(ValueType::Prim(prim)) => Some(prim),
        _ => None,
    }
}
