//! What texts cost that are taken and made: whole KiB of each, nothing for one of fewer than 1,024 bytes.
ghost use Rattle.std.specs.Prelude.{◌≡◌, ◌/◌, ◌≤◌, ◌^◌, [], ◌∷◌, length};
ghost use Rattle.odata_functions.specs.DatumVal.{Reading, datum_val};
ghost use Rattle.odata_functions.specs.KeptVal.{Contents, kept_val};
ghost use Rattle.odata_filter_operations.specs.TextCosts.{call_cost, comparison_cost, text_cost};

use edm_values::{Datum, Value};
use odata_signatures::Function;

/// The whole KiB of a text.
#[inline(always)]
fn kib(text: &str) -> usize
    ensures value { result ≡ length text.now / 1024 }
    ensures small { result ≤ 2 ^ 53 }
{
    text.len() / 1024
}

/// What a text costs; another value costs nothing.
#[inline(always)]
fn text_cost(value: &Datum<'_>) -> usize
    ensures value { (r : Reading) → result ≡ text_cost (datum_val r value.now) }
    ensures small { result ≤ 2 ^ 53 }
{
    match value {
        Datum::Text(text) => kib(text.as_str()),
        _ => 0,
    }
}

/// Returns what a comparison costs: that of two texts what both cost.
#[inline(always)]
pub fn comparison_cost(left: &Datum<'_>, right: &Datum<'_>) -> usize
    ensures { (l r : Reading) → result ≡ comparison_cost (datum_val l left.now) (datum_val r right.now) }
{
    match left {
        Datum::Text(l) => match right {
            Datum::Text(r) => kib(l.as_str()) + kib(r.as_str()),
            _ => 0,
        },
        _ => 0,
    }
}

/// Returns what a comparison of stored values costs: that of two texts what both cost.
#[inline(always)]
pub fn stored_cost(left: &Value, right: &Value) -> usize
    ensures { (l r : Contents) → result ≡ comparison_cost (kept_val l left.now) (kept_val r right.now) }
{
    match left {
        Value::Text(l) => match right {
            Value::Text(r) => kib(l.as_str()) + kib(r.as_str()),
            _ => 0,
        },
        _ => 0,
    }
}

/// Returns what a call of one value costs, for the text that it takes and the one that it makes.
#[inline(always)]
pub fn cost_of_one(function: Function, first: &Datum<'_>) -> usize
    ensures { (r : Reading) → result ≡ call_cost function (datum_val r first.now ∷ []) }
{
    match first {
        Datum::Text(text) => {
            let taken = kib(text.as_str());
            match function {
                Function::ToLower => 8 * taken + 16 * taken,
                Function::ToUpper => 8 * taken + 16 * taken,
                _ => 8 * taken,
            }
        }
        _ => 0,
    }
}

/// Returns what a call of two values costs.
#[inline(always)]
pub fn cost_of_two(function: Function, first: &Datum<'_>, second: &Datum<'_>) -> usize
    ensures { (r : Reading) → result ≡ call_cost function (datum_val r first.now ∷ datum_val r second.now ∷ []) }
{
    let taken = 8 * (text_cost(first) + text_cost(second));
    match first {
        Datum::Text(left) => match second {
            Datum::Text(right) => match function {
                Function::Concat => taken
                    + 16 * ((left.as_str().len() + right.as_str().len()) / 1024),
                _ => taken,
            },
            _ => taken,
        },
        _ => taken,
    }
}

/// Returns what a call of three values costs. No function makes a text of three.
#[inline(always)]
pub fn cost_of_three(first: &Datum<'_>, second: &Datum<'_>, third: &Datum<'_>) -> usize
    ensures { (function : Function) (r : Reading) → result
        ≡ call_cost function (datum_val r first.now ∷ datum_val r second.now ∷ datum_val r third.now ∷ []) }
{
    8 * (text_cost(first) + (text_cost(second) + text_cost(third)))
}
