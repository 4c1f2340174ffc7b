//! Tests of single values that a filter makes of its rows: where one rejects a value, the filter is false.
ghost use Rattle.std.specs.Prelude.{◌≡◌, ◌<◌, ◌^◌, All, IfSome, IsTrue, Some, false, length};
ghost use Rattle.edm_values.specs.PlainVal.{plain_val};
ghost use Rattle.edm_values.specs.Val.{Val, text as text_val, whole};
ghost use Rattle.odata_eval.specs.FalseWhere.{IsSieveOf};
ghost use Rattle.odata_eval.specs.TrueWhere.{AreWhole};
ghost use Rattle.odata_eval.specs.private.ValueTests.{AndsAbove, Decides, IsNoNumber, IsTermSieve};
ghost use Rattle.filter_context.specs.private.Place.{HasKind, HasOperator};
ghost use Rattle.odata_syntax.specs.declared.binary_operator.ComparisonOperator.{ComparisonOperator as Compares};

use edm_values::{Sieve, Value};
use odata_checked_filter::{Checked, NodeKind};
use odata_signatures::literals_have_one_value;
use odata_syntax::{BinaryOperator, ComparisonOperator, LogicalOperator};
use std::alloc::Global;

/// A test of the value in a slot of a filter's type.
#[derive(Drop)]
pub struct SlotSieve {
    pub slot: usize,
    pub sieve: Sieve,
}

/// The tests that a filter makes of its type's slots.
#[derive(Drop)]
pub struct SlotTests {
    pub sieves: Vec<SlotSieve>,
    /// Whether each term of the filter is one of them.
    pub are_whole: bool,
}

/// Returns the tests of slots that the filter's first terms make. Terms are those of a chain of `and`, else the filter
/// itself, up to the first one that is neither a property nor its comparison with a number or a text. There are fewer
/// where out of memory. Its clauses say nothing of which are left out.
pub fn slot_sieves(alloc: Global, checked: &Checked<'_>) -> SlotTests
    ensures sieves { All (IsSieveOf checked.now) result.sieves.items }
    ensures whole { IsTrue result.are_whole → AreWhole checked.now result.sieves.items }
{
    let nodes = checked.nodes();
    let mut sieves = Vec::new(alloc);
    let mut at = ands_above(checked);
    let mut term = at;
    loop {
        let Some(test) = term_sieve(alloc, checked, term) else {
            return first_tests(sieves);
        };
        match sieves.push(test) {
            Ok(()) => {}
            Err(_) => return first_tests(sieves),
        }
        if at == 0 {
            return SlotTests {
                sieves,
                are_whole: true,
            };
        }
        if at >= nodes.len() {
            return first_tests(sieves);
        }
        term = nodes[at].stop;
        at -= 1;
    }
}

/// Tests of a filter that has further terms.
fn first_tests(sieves: Vec<SlotSieve>) -> SlotTests
    ensures sieves { result.sieves ≡ sieves }
    ensures not_whole { result.are_whole ≡ false }
{
    SlotTests {
        sieves,
        are_whole: false,
    }
}

/// The kind of the node at an index of the filter's list, if there is one.
fn kind_at(checked: &Checked<'_>, place: usize) -> Option<NodeKind>
    ensures kind { IfSome result (HasKind checked.now.list place) }
    ensures within { IfSome result (λ _. place < length checked.now.list.nodes) }
    ensures few { IfSome result (λ _. place < 2 ^ 63) }
{
    let nodes = checked.nodes();
    if place < nodes.len() {
        Some(nodes[place].kind)
    } else {
        None
    }
}

/// Whether an `and` stands there.
fn is_and(checked: &Checked<'_>, place: usize) -> bool
    ensures here { IsTrue result → HasOperator checked.now.list place (BinaryOperator.Logical LogicalOperator.And) }
    ensures within { IsTrue result → place < length checked.now.list.nodes }
    ensures few { IsTrue result → place < 2 ^ 63 }
{
    let Some(kind) = kind_at(checked, place) else {
        return false;
    };
    match kind {
        NodeKind::Binary { operator } => match operator {
            BinaryOperator::Logical(LogicalOperator::And) => true,
            _ => false,
        },
        _ => false,
    }
}

/// How many `and`s the list begins with.
fn ands_above(checked: &Checked<'_>) -> usize
    ensures { AndsAbove checked.now result }
{
    let mut place = 0;
    while is_and(checked, place) {
        place += 1;
    }
    place
}

/// The test that the term at a node makes.
fn term_sieve(alloc: Global, checked: &Checked<'_>, place: usize) -> Option<SlotSieve>
    ensures { IfSome result (λ test. IsTermSieve checked.now place test.slot test.sieve) }
{
    let Some(kind) = kind_at(checked, place) else {
        return None;
    };
    match kind {
        NodeKind::Property { slot } => Some(SlotSieve {
            slot,
            sieve: Sieve::True,
        }),
        NodeKind::Binary { operator } => match operator {
            BinaryOperator::Comparison(comparison) => {
                compared_sieve(alloc, checked, place, comparison)
            }
            _ => None,
        },
        _ => None,
    }
}

/// The test that a comparison of a property with a literal makes.
fn compared_sieve(
    alloc: Global,
    checked: &Checked<'_>,
    place: usize,
    comparison: ComparisonOperator,
) -> Option<SlotSieve>
    requires here { HasOperator checked.now.list place (BinaryOperator.Comparison comparison) }
    requires few { place < 2 ^ 63 }
    ensures { IfSome result (λ test. IsTermSieve checked.now place test.slot test.sieve) }
{
    literals_have_one_value();
    let nodes = checked.nodes();
    let next = place + 1;
    if next >= nodes.len() {
        return None;
    }
    let left = &nodes[next];
    let Some(right_kind) = kind_at(checked, left.stop) else {
        return None;
    };
    let slot = match left.kind {
        NodeKind::Property { slot } => slot,
        _ => return None,
    };
    let index = match right_kind {
        NodeKind::Literal { value, .. } => value,
        _ => return None,
    };
    let values = checked.values();
    if index >= values.len() {
        return None;
    }
    match sieve_of(alloc, comparison, &values[index]) {
        Some(sieve) => Some(SlotSieve { slot, sieve }),
        None => None,
    }
}

/// The test that a comparison with a value makes, where that is a number or a text.
fn sieve_of(alloc: Global, comparison: ComparisonOperator, literal: &Value) -> Option<Sieve>
    ensures number { IfSome result (λ _. IsNoNumber literal.now) }
    ensures decides { IfSome result (λ sieve. (right : Val) → plain_val literal.now ≡ Some right
        → Decides comparison right sieve) }
{
    match literal {
        Value::Int(n) => Some(number_sieve(comparison, *n)),
        Value::Text(text) => text_sieve(alloc, comparison, text.as_str()),
        _ => None,
    }
}

fn number_sieve(comparison: ComparisonOperator, n: i64) -> Sieve
    ensures { Decides comparison (whole n) result }
{
    match comparison {
        ComparisonOperator::Eq => Sieve::Within { low: n, high: n },
        ComparisonOperator::Ne => Sieve::Besides(n),
        ComparisonOperator::Ge => Sieve::Within {
            low: n,
            high: i64::MAX,
        },
        ComparisonOperator::Le => Sieve::Within {
            low: i64::MIN,
            high: n,
        },
        ComparisonOperator::Gt => sieve_above(n),
        ComparisonOperator::Lt => sieve_below(n),
    }
}

/// The test that numbers above that one pass.
fn sieve_above(n: i64) -> Sieve
    ensures { Decides Compares.Gt (whole n) result }
{
    let Some(low) = n.checked_add(1) else {
        return Sieve::All;
    };
    Sieve::Within {
        low,
        high: i64::MAX,
    }
}

/// The test that numbers below that one pass.
fn sieve_below(n: i64) -> Sieve
    ensures { Decides Compares.Lt (whole n) result }
{
    let Some(high) = n.checked_sub(1) else {
        return Sieve::All;
    };
    Sieve::Within {
        low: i64::MIN,
        high,
    }
}

fn text_sieve(alloc: Global, comparison: ComparisonOperator, text: &str) -> Option<Sieve>
    ensures { IfSome result (Decides comparison (text_val text.now)) }
{
    let Ok(copy) = String::from_str(alloc, text) else {
        return None;
    };
    match comparison {
        ComparisonOperator::Eq => Some(Sieve::Text(copy)),
        ComparisonOperator::Ne => Some(Sieve::BesidesText(copy)),
        ComparisonOperator::Gt => Some(Sieve::All),
        ComparisonOperator::Ge => Some(Sieve::All),
        ComparisonOperator::Lt => Some(Sieve::All),
        ComparisonOperator::Le => Some(Sieve::All),
    }
}
