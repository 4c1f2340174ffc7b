//! What an operator makes of values that are there.
ghost use Rattle.std.specs.Prelude.{◌≡◌, ◌↔◌, Some, IfNone, IfSome, IsTrue, IsSomeAnd};
ghost use Rattle.edm_values.specs.declared.primitive.PrimitiveType.{PrimitiveType};
ghost use Rattle.csdl_schema.specs.SchemaModel.{SchemaModel};
ghost use Rattle.odata_functions.specs.Comparable.{AreComparableBy};
ghost use Rattle.odata_functions.specs.Comparison.{ComparesTrue};
ghost use Rattle.odata_functions.specs.KeptVal.{Contents, kept_val};
ghost use Rattle.odata_signatures.specs.TypeView.{expr_type};
ghost use Rattle.odata_filter_operations.specs.CalculationGives.{CalculationGives, NegatedGives, number_outcome, number_val};
ghost use Rattle.odata_filter_operations.specs.DatumView.{answer_outcome};
ghost use Rattle.odata_filter_operations.specs.Operators.{AreNumbers, IsOneNumber};

use super::eval_fault::EvalFault;
use edm_values::{Prim, Value};
use odata_functions::{ArithFault, arith, compare_values, negate};
use odata_signatures::{EdmType, ValueType};
use odata_syntax::{ArithmeticOperator, ComparisonOperator};

/// Returns whether the comparison of two stored values is true.
#[inline(always)]
pub fn compare_kept(comparison: ComparisonOperator, left: &Value, right: &Value) -> bool
    requires { (l r : Contents) → AreComparableBy comparison (kept_val l left.now) (kept_val r right.now) }
    ensures { (l r : Contents)
        → IsTrue result ↔ ComparesTrue comparison (kept_val l left.now) (kept_val r right.now) }
{
    compare_values(comparison, left, right)
}

/// Returns whether the comparison of two numbers or nulls is true.
#[inline(always)]
pub fn compare_numbers(
    comparison: ComparisonOperator,
    left: Option<i64>,
    right: Option<i64>,
) -> bool
    ensures { IsTrue result ↔ ComparesTrue comparison (number_val left) (number_val right) }
{
    compare_values(comparison, &left, &right)
}

/// Returns the result of arithmetic on two numbers or nulls, where its node has that type.
#[inline(always)]
pub fn calculated(
    operator: ArithmeticOperator,
    edm_type: &EdmType,
    left: Option<i64>,
    right: Option<i64>,
) -> Result<Option<i64>, EvalFault>
    requires { (schema : SchemaModel)
        → AreNumbers (expr_type schema edm_type.now) (number_val left) (number_val right) }
    ensures { (schema : SchemaModel) → IsSomeAnd (answer_outcome number_val result)
        (CalculationGives operator (expr_type schema edm_type.now) (number_val left) (number_val right)) }
{
    let prim = match prim_of(edm_type) {
        Some(prim) => prim,
        None => return Ok(None),
    };
    match left {
        Some(a) => match right {
            Some(b) => reported_number(arith(operator, prim, Some(a), Some(b))),
            None => Ok(None),
        },
        None => Ok(None),
    }
}

/// Returns the negation of a number or null, where its node has that type.
#[inline(always)]
pub fn negated(edm_type: &EdmType, operand: Option<i64>) -> Result<Option<i64>, EvalFault>
    requires { (schema : SchemaModel) → IsOneNumber (expr_type schema edm_type.now) (number_val operand) }
    ensures { (schema : SchemaModel) → IsSomeAnd (answer_outcome number_val result)
        (NegatedGives (expr_type schema edm_type.now) (number_val operand)) }
{
    let prim = match prim_of(edm_type) {
        Some(prim) => prim,
        None => return Ok(None),
    };
    match operand {
        Some(n) => reported_number(negate(prim, Some(n))),
        None => Ok(None),
    }
}

/// The primitive type of one value. At any other type no operand is a number.
#[inline(always)]
fn prim_of(edm_type: &EdmType) -> Option<Prim>
    ensures some { IfSome result (λ p. edm_type.now ≡ EdmType.Single (ValueType.Prim p)) }
    ensures none { IfNone result ((p : PrimitiveType) → ¬ (edm_type.now ≡ EdmType.Single (ValueType.Prim p))) }
{
    match edm_type {
        EdmType::Single(ValueType::Prim(prim)) => Some(*prim),
        _ => None,
    }
}

/// What came of numbers, its fault as one of the evaluator's.
fn reported_number(answer: Result<Option<i64>, ArithFault>) -> Result<Option<i64>, EvalFault>
    ensures { answer_outcome number_val result ≡ Some (number_outcome answer) }
{
    match answer {
        Ok(number) => Ok(number),
        Err(ArithFault::Overflow) => Err(EvalFault::Overflow),
        Err(ArithFault::DivideByZero) => Err(EvalFault::DivideByZero),
    }
}
