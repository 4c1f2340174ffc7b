ghost use Rattle.std.specs.Prelude.{◌↔◌, ℕ, ◌+◌, ℤ, pos, negsuc, ◌<ℤ◌, ◌≤ℤ◌, IsFalse, IsTrue};
ghost use Rattle.odata_filter_operations.specs.FunctionGives.{GivesCount};
ghost use Rattle.odata_filter_operations.specs.Outcome.{Outcome};
ghost use Rattle.odata_ranges.specs.Reach.{IsBounded, IsSmall};
ghost use Rattle.odata_ranges.specs.Within.{HoldsCount, IsUpTo, IsWithin, unbounded};
ghost use Rattle.odata_ranges.specs.private.Called.{IsCalledRange};

use super::arithmetic_ranges::{greatest, least};
use super::bounds::UNBOUNDED;
use super::range::Range;
use odata_functions::day_numbers_have_one_date;
use odata_signatures::Function;

const MOST_INT32: i128 = 2_147_483_647;

/// Whether a number is greater than each of type Int32.
fn exceeds_int32(number: i128) -> bool
    ensures { IsTrue result ↔ (pos 2_147_483_647 <ℤ number) }
{
    MOST_INT32 < number
}

/// A number of type Int32 between two, the first of which is -1 at least; outside the type Overflow.
fn counted(low: i128, high: i128) -> Range
    requires low { IsSmall low }
    requires least { negsuc 0 ≤ℤ low }
    requires high { IsSmall high }
    ensures bounded { IsBounded result }
    ensures within { (n : ℤ) (o : Outcome) → low ≤ℤ n → (high <ℤ unbounded → n ≤ℤ high) → GivesCount n o
        → IsWithin result o }
{
    let most = least(MOST_INT32, high);
    let first = least(low, most);
    Range {
        may_fault: exceeds_int32(high),
        may_be_null: false,
        low: first,
        high: most,
    }
}

/// Texts of at most so many characters.
fn up_to(high: i128) -> Range
    requires { IsSmall high }
    ensures bounded { IsBounded result }
    ensures within { (n : ℕ) → IsUpTo high n → HoldsCount result n }
    ensures faults { IsFalse result.may_fault }
{
    Range::between(least(0, high), high, false)
}

/// Bounds of two counts as a bound of their sum. No count is below 0.
fn added(first: i128, second: i128) -> i128
    requires first { IsSmall first }
    requires second { IsSmall second }
    ensures least { (m n : ℕ) → first ≤ℤ pos m → second ≤ℤ pos n → result ≤ℤ pos (m + n) }
    ensures most { result <ℤ unbounded → (m n : ℕ) → IsUpTo first m → IsUpTo second n → pos (m + n) ≤ℤ result }
    ensures small { IsSmall result }
{
    let sum = greatest(first, 0) + greatest(second, 0);
    if UNBOUNDED < sum { UNBOUNDED } else { sum }
}

/// Texts one of which stands after the other.
fn joined(first: Range, second: Range) -> Range
    requires first { IsBounded first }
    requires second { IsBounded second }
    ensures bounded { IsBounded result }
    ensures counts { (m n : ℕ) → HoldsCount first m → HoldsCount second n → HoldsCount result (m + n) }
    ensures faults { IsFalse result.may_fault }
{
    let low = added(first.low, second.low);
    let high = added(first.high, second.high);
    let first_low = least(low, high);
    Range {
        may_fault: false,
        may_be_null: false,
        low: first_low,
        high,
    }
}

/// What a function evaluates to, of arguments that are neither faults nor null; without a second one that range reports
/// nothing.
pub(crate) fn called(function: Function, first: Range, second: Range) -> Range
    requires first { IsBounded first }
    requires second { IsBounded second }
    ensures bounded { IsBounded result }
    ensures called { IsCalledRange function first second result }
{
    day_numbers_have_one_date();
    match function {
        Function::Contains => Range::plain(false),
        Function::StartsWith => Range::plain(false),
        Function::EndsWith => Range::plain(false),
        Function::Concat => joined(first, second),
        Function::Length => counted(greatest(0, first.low), first.high),
        Function::IndexOf => counted(-1, first.high),
        Function::Substring => up_to(first.high),
        Function::Trim => up_to(first.high),
        Function::ToLower => Range::between(first.low, first.high, false),
        Function::ToUpper => Range::between(first.low, first.high, false),
        Function::Year => Range::between(1, 9_999, false),
        Function::Month => Range::between(1, 12, false),
        Function::Day => Range::between(1, 31, false),
        Function::Hour => Range::between(0, 23, false),
        Function::Minute => Range::between(0, 59, false),
        Function::Second => Range::between(0, 59, false),
        Function::TotalOffsetMinutes => Range::between(-1_439, 1_439, false),
        Function::Date => Range::plain(false),
        Function::Now => Range::plain(false),
    }
}

/// Whether a text of so many characters may have more of them than an Int32 counts.
pub fn may_exceed_int32(range: Range) -> bool
    ensures { IsTrue result ↔ (pos 2_147_483_647 <ℤ range.high) }
{
    exceeds_int32(range.high)
}
