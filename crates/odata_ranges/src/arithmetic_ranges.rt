ghost use Rattle.std.specs.Prelude.{◌≡◌, ◌≢◌, ◌⊎◌, ◌<ℤ◌, ◌≤ℤ◌, ◌*ℤ◌, ℤ, pos, int_div, unsigned_abs, IfNone, IfSome, IsFalse, IsTrue, ◌||◌};
ghost use Rattle.edm_values.specs.NumberTypes.{IsNumberType};
ghost use Rattle.odata_functions.specs.Arithmetic.{IsDividing};
ghost use Rattle.odata_syntax.specs.declared.binary_operator.ArithmeticOperator.TheVariants.{Add, Sub, Mul, Div, Mod};
ghost use Rattle.odata_ranges.specs.Reach.{HoldsNumber, IsBounded, IsSmall, LiesBetween};
ghost use Rattle.odata_ranges.specs.private.ArithmeticRanges.{IsNear};
ghost use Rattle.odata_ranges.specs.private.Reach.{Attains, CalculatesWithin, IsOneOf, Reaches};
ghost use Rattle.odata_ranges.specs.Within.{HasFault, NeverFaults};

use super::bounds::range_of_type;
use super::range::Range;
use edm_values::Prim;
use odata_syntax::ArithmeticOperator;

pub(crate) fn least(a: i128, b: i128) -> i128
    ensures both { (result ≤ℤ a) × (result ≤ℤ b) }
    ensures one { (result ≡ a) ⊎ (result ≡ b) }
{
    if a < b { a } else { b }
}

pub(crate) fn greatest(a: i128, b: i128) -> i128
    ensures both { (a ≤ℤ result) × (b ≤ℤ result) }
    ensures one { (result ≡ a) ⊎ (result ≡ b) }
{
    if a < b { b } else { a }
}

/// The least and the greatest of four numbers.
fn span_of(a: i128, b: i128, c: i128, d: i128) -> (i128, i128)
    ensures least { (result.0 ≤ℤ a) × (result.0 ≤ℤ b) × (result.0 ≤ℤ c) × (result.0 ≤ℤ d) }
    ensures greatest { (a ≤ℤ result.1) × (b ≤ℤ result.1) × (c ≤ℤ result.1) × (d ≤ℤ result.1) }
    ensures one { IsOneOf a b c d result.0 × IsOneOf a b c d result.1 }
{
    (
        least(least(a, b), least(c, d)),
        greatest(greatest(a, b), greatest(c, d)),
    )
}

fn sum_span(left: Range, right: Range) -> (i128, i128)
    requires left { IsBounded left }
    requires right { IsBounded right }
    ensures reaches { Reaches Add left right result }
    ensures attains { Attains Add left right result }
{
    (left.low + right.low, left.high + right.high)
}

fn difference_span(left: Range, right: Range) -> (i128, i128)
    requires left { IsBounded left }
    requires right { IsBounded right }
    ensures reaches { Reaches Sub left right result }
    ensures attains { Attains Sub left right result }
{
    (left.low - right.high, left.high - right.low)
}

fn product(a: i128, b: i128) -> i128
    requires left { IsSmall a }
    requires right { IsSmall b }
    ensures { result ≡ a *ℤ b }
{
    a * b
}

fn product_span(left: Range, right: Range) -> (i128, i128)
    requires left { IsBounded left }
    requires right { IsBounded right }
    ensures reaches { Reaches Mul left right result }
    ensures attains { Attains Mul left right result }
{
    let both_low = product(left.low, right.low);
    let low_by_high = product(left.low, right.high);
    let high_by_low = product(left.high, right.low);
    let both_high = product(left.high, right.high);
    span_of(both_low, low_by_high, high_by_low, both_high)
}

fn quotient(a: i128, b: i128) -> i128
    requires left { IsSmall a }
    requires right { IsSmall b }
    requires apart { b ≢ pos 0 }
    ensures { result ≡ int_div a b }
{
    a / b
}

fn quotient_span(left: Range, right: Range) -> (i128, i128)
    requires left { IsBounded left }
    requires right { IsBounded right }
    requires apart { ¬ HoldsNumber right (pos 0) }
    ensures reaches { Reaches Div left right result }
    ensures attains { Attains Div left right result }
{
    let both_low = quotient(left.low, right.low);
    let low_by_high = quotient(left.low, right.high);
    let high_by_low = quotient(left.high, right.low);
    let both_high = quotient(left.high, right.high);
    span_of(both_low, low_by_high, high_by_low, both_high)
}

/// How far from 0 the numbers of a range are at the most.
fn farthest(range: Range) -> i128
    requires { IsBounded range }
    ensures farther { (n : ℤ) → HoldsNumber range n → pos (unsigned_abs n) ≤ℤ result }
    ensures small { IsSmall result }
{
    greatest(
        greatest(range.low, -range.low),
        greatest(range.high, -range.high),
    )
}

/// The least remainder of dividends from one on, none of which is farther from 0.
fn lowest_remainder(low: i128, most: i128) -> i128
    requires low { IsSmall low }
    requires most { IsSmall most }
    ensures { (a r : ℤ) → low ≤ℤ a → IsNear a r most → result ≤ℤ r }
{
    if low < 0 { greatest(low, -most) } else { 0 }
}

/// The greatest remainder of dividends up to one, none of which is farther from 0.
fn highest_remainder(high: i128, most: i128) -> i128
    requires high { IsSmall high }
    requires most { IsSmall most }
    ensures { (a r : ℤ) → a ≤ℤ high → IsNear a r most → r ≤ℤ result }
{
    if 0 < high { least(high, most) } else { 0 }
}

/// A remainder is of the dividend's sign, no farther from 0 than that, and nearer than the divisor.
fn remainder_span(left: Range, right: Range) -> (i128, i128)
    requires left { IsBounded left }
    requires right { IsBounded right }
    ensures { Reaches Mod left right result }
{
    let most = farthest(right) - 1;
    (
        lowest_remainder(left.low, most),
        highest_remainder(left.high, most),
    )
}

/// The whole numbers that the operator makes of these; `None` where it may divide by 0.
fn reach(operator: ArithmeticOperator, left: Range, right: Range) -> Option<(i128, i128)>
    requires left { IsBounded left }
    requires right { IsBounded right }
    ensures reaches { IfSome result (Reaches operator left right) }
    ensures attains { IfSome result (λ span. operator ≢ Mod → Attains operator left right span) }
    ensures apart { IfSome result (λ _. IsDividing operator → ¬ HoldsNumber right (pos 0)) }
    ensures zero { IfNone result (IsDividing operator × HoldsNumber right (pos 0)) }
{
    match operator {
        ArithmeticOperator::Add => Some(sum_span(left, right)),
        ArithmeticOperator::Sub => Some(difference_span(left, right)),
        ArithmeticOperator::Mul => Some(product_span(left, right)),
        ArithmeticOperator::Div => {
            if right.holds_zero() {
                None
            } else {
                Some(quotient_span(left, right))
            }
        }
        ArithmeticOperator::Mod => {
            if right.holds_zero() {
                None
            } else {
                Some(remainder_span(left, right))
            }
        }
    }
}

/// Whether a number between two may lie outside a range.
fn goes_past(within: Range, low: i128, high: i128) -> bool
    ensures inside { IsFalse result → (within.low ≤ℤ low) × (high ≤ℤ within.high) }
    ensures past { IsTrue result → (low <ℤ within.low) ⊎ (within.high <ℤ high) }
{
    low < within.low || within.high < high
}

pub(crate) fn either(left: bool, right: bool) -> bool
    ensures { result ≡ (left || right) }
{
    left || right
}

/// The numbers of a range that lie between two, and a fault where others may lie there.
fn met(within: Range, low: i128, high: i128) -> Range
    requires { IsBounded within }
    ensures bounded { IsBounded result }
    ensures numbers { (n : ℤ) → LiesBetween low high n → HoldsNumber within n → HoldsNumber result n }
    ensures faults { IsFalse result.may_fault → (n : ℤ) → LiesBetween low high n → HoldsNumber within n }
    ensures past { low ≤ℤ high → IsTrue result.may_fault → (low <ℤ within.low) ⊎ (within.high <ℤ high) }
    ensures null { result.may_be_null ≡ within.may_be_null }
{
    let first = greatest(low, within.low);
    let last = least(high, within.high);
    if last < first {
        return within.with_faults(true);
    }
    Range {
        may_fault: goes_past(within, low, high),
        may_be_null: within.may_be_null,
        low: first,
        high: last,
    }
}

/// What arithmetic in that type evaluates to, of operands that are no faults.
pub(crate) fn calculated(
    operator: ArithmeticOperator,
    prim: Prim,
    left: Range,
    right: Range,
) -> Range
    requires left { IsBounded left }
    requires right { IsBounded right }
    requires number { IsNumberType prim }
    ensures bounded { IsBounded result }
    ensures within { CalculatesWithin operator prim left right result }
    ensures faults { IsTrue result.may_fault → operator ≢ Mod → HasFault operator prim left right }
{
    let within = range_of_type(prim, either(left.may_be_null, right.may_be_null));
    match reach(operator, left, right) {
        Some((low, high)) => met(within, low, high),
        None => within.with_faults(true),
    }
}

/// Whether the operator can have no fault: its result always lies within the type.
/// Nor does it ever divide by 0. Of `mod` its clauses say nothing of false, which costs time alone.
pub fn is_safe(operator: ArithmeticOperator, prim: Prim, left: Range, right: Range) -> bool
    requires left { IsBounded left }
    requires right { IsBounded right }
    requires number { IsNumberType prim }
    ensures safe { IsTrue result → NeverFaults operator prim left right }
    ensures faults { IsFalse result → operator ≢ Mod → HasFault operator prim left right }
{
    !calculated(operator, prim, left, right).may_fault
}
