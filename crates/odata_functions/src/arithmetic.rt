//! Arithmetic on whole numbers, None being null.
ghost use Rattle.std.specs.Prelude.{◌↔◌, ℤ, IfSome, IsTrue, SomeIff, FitsSigned};
ghost use Rattle.std.specs.Int.{w64};
ghost use Rattle.edm_values.specs.NumberTypes.{IsNumberOf};
ghost use Rattle.odata_functions.specs.Promotion.{IsPromoted};

use edm_values::Prim;
use odata_syntax::ArithmeticOperator;
use thiserror::Error;

/// Why arithmetic has no result.
#[derive(Clone, Copy, Debug, PartialEq, Eq, Error)]
pub enum ArithFault {
    #[error("the result lies outside its type")]
    Overflow,
    #[error("division by zero")]
    DivideByZero,
}

ghost use Rattle.odata_functions.specs.Arithmetic.{ArithmeticGives, ComesWithin, NegationGives, NumbersGive};
ghost use Rattle.odata_syntax.specs.declared.binary_operator.ArithmeticOperator.TheVariants.{Div, Mod};

/// Returns the result of the operator on two operands of a type, in that type; null where one is null.
#[inline(always)]
pub fn arith(
    operator: ArithmeticOperator,
    kind: Prim,
    left: Option<i64>,
    right: Option<i64>,
) -> Result<Option<i64>, ArithFault>
    requires promoted { IsPromoted kind }
    requires left { IfSome left (IsNumberOf kind) }
    requires right { IfSome right (IsNumberOf kind) }
    ensures { ArithmeticGives operator kind left right result }
{
    match (left, right) {
        (Some(a), Some(b)) => of_numbers(operator, kind, a, b),
        _ => Ok(None),
    }
}

/// Returns the negation of an operand of a type, in that type; null of null.
#[inline(always)]
pub fn negate(kind: Prim, operand: Option<i64>) -> Result<Option<i64>, ArithFault>
    requires promoted { IsPromoted kind }
    requires operand { IfSome operand (IsNumberOf kind) }
    ensures { NegationGives kind operand result }
{
    match operand {
        Some(n) => within(kind, n.checked_neg()),
        None => Ok(None),
    }
}

/// What the operator makes of two numbers, in a type.
#[inline(always)]
fn of_numbers(
    operator: ArithmeticOperator,
    kind: Prim,
    a: i64,
    b: i64,
) -> Result<Option<i64>, ArithFault>
    requires promoted { IsPromoted kind }
    ensures { NumbersGive operator kind a b result }
{
    match operator {
        ArithmeticOperator::Add => within(kind, a.checked_add(b)),
        ArithmeticOperator::Sub => within(kind, a.checked_sub(b)),
        ArithmeticOperator::Mul => within(kind, a.checked_mul(b)),
        ArithmeticOperator::Div => quotient(kind, a, b),
        ArithmeticOperator::Mod => remainder(kind, a, b),
    }
}

/// The quotient, cut toward zero. That of the least number and -1 lies outside every type.
#[inline(always)]
fn quotient(kind: Prim, a: i64, b: i64) -> Result<Option<i64>, ArithFault>
    requires promoted { IsPromoted kind }
    ensures { NumbersGive Div kind a b result }
{
    if b == 0 {
        return Err(ArithFault::DivideByZero);
    }
    within(kind, a.checked_div(b))
}

/// The remainder of that division: zero or of `a`'s sign. By -1 it is zero, whatever the quotient.
#[inline(always)]
fn remainder(kind: Prim, a: i64, b: i64) -> Result<Option<i64>, ArithFault>
    requires promoted { IsPromoted kind }
    ensures { NumbersGive Mod kind a b result }
{
    if b == 0 {
        return Err(ArithFault::DivideByZero);
    }
    within(kind, Some(a.wrapping_rem(b)))
}

/// The number, if it lies within the type. There is none where it is not even within `Edm.Int64`.
#[inline(always)]
fn within(kind: Prim, number: Option<i64>) -> Result<Option<i64>, ArithFault>
    requires promoted { IsPromoted kind }
    ensures { (n : ℤ) → SomeIff number (FitsSigned w64 n) n → ComesWithin kind n result }
{
    match number {
        Some(n) if holds(kind, n) => Ok(Some(n)),
        _ => Err(ArithFault::Overflow),
    }
}

/// Whether a type in which numbers are computed has the number. `Edm.Int64` has each.
#[inline(always)]
fn holds(kind: Prim, n: i64) -> bool
    requires promoted { IsPromoted kind }
    ensures { IsTrue result ↔ IsNumberOf kind n }
{
    match kind {
        Prim::Int16 => i16::try_from(n).is_ok(),
        Prim::Int32 => i32::try_from(n).is_ok(),
        _ => true,
    }
}
