//! Tests of single values, asked of an entity.
ghost use Rattle.std.specs.Prelude.{◌≡◌, ◌≢◌, [], All, IsTrue};
ghost use Rattle.edm_values.specs.Val.{boolean, text as text_val, whole};
ghost use Rattle.odata_eval.specs.TrueWhere.{Passes};
ghost use Rattle.odata_eval.specs.private.PassedTests.{PassesAt};

use super::value_tests::SlotSieve;
use edm_values::{Sieve, Value};

/// Whether there are tests, and the values in a record's slots pass each of them.
#[inline(always)]
pub(crate) fn pass_all(slots: &[Value], tests: &[SlotSieve]) -> bool
    ensures some { IsTrue result → tests.now ≢ [] }
    ensures pass { IsTrue result → All (PassesAt slots.now) tests.now }
{
    if tests.len() == 0 {
        return false;
    }
    for place in 0..tests.len() {
        if !passes_at(slots, &tests[place]) {
            return false;
        }
    }
    true
}

/// Whether the value in the slot of a test passes it.
#[inline(always)]
fn passes_at(slots: &[Value], test: &SlotSieve) -> bool
    ensures { IsTrue result → PassesAt slots.now test.now }
{
    if test.slot >= slots.len() {
        return false;
    }
    match &slots[test.slot] {
        Value::Bool(truth) => truth_passes(&test.sieve, *truth),
        Value::Int(number) => number_passes(&test.sieve, *number),
        Value::Text(text) => text_passes(&test.sieve, text.as_str()),
        _ => false,
    }
}

/// Whether a truth value passes a test.
#[inline(always)]
fn truth_passes(sieve: &Sieve, truth: bool) -> bool
    ensures { IsTrue result → Passes sieve.now (boolean truth) }
{
    match sieve {
        Sieve::True => truth,
        _ => false,
    }
}

/// Whether a number passes a test.
#[inline(always)]
fn number_passes(sieve: &Sieve, number: i64) -> bool
    ensures { IsTrue result → Passes sieve.now (whole number) }
{
    match sieve {
        Sieve::Within { low, high } => *low <= number && number <= *high,
        Sieve::Besides(other) => number != *other,
        _ => false,
    }
}

/// Whether a text passes a test.
#[inline(always)]
fn text_passes(sieve: &Sieve, text: &str) -> bool
    ensures { IsTrue result → Passes sieve.now (text_val text.now) }
{
    match sieve {
        Sieve::Text(only) => text == only.as_str(),
        Sieve::BesidesText(other) => text != other.as_str(),
        _ => false,
    }
}
