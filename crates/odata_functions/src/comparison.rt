//! Comparison of two values.
ghost use Rattle.std.specs.Prelude.{◌≡◌, ◌↔◌, IsTrue};
ghost use Rattle.std.specs.Str.{chars};
ghost use Rattle.std.specs.declared.cmp.Ordering.TheVariants.{Greater};
ghost use Rattle.edm_values.specs.Val.{Val};
ghost use Rattle.odata_functions.specs.DatumVal.{Reading, datum_val};
ghost use Rattle.odata_functions.specs.Comparable.{AreComparableBy};
ghost use Rattle.odata_functions.specs.Comparison.{AreEqual, ComparesTrue, IsGreater, text_cmp};
ghost use Rattle.odata_functions.specs.Pair.{IsPairOf};

use super::pair::{Compared, Pair};
use edm_values::Datum;
use odata_syntax::ComparisonOperator;

/// Returns whether the comparison is true.
pub fn compare(operator: ComparisonOperator, left: &Datum<'_>, right: &Datum<'_>) -> bool
    requires { (l r : Reading) → AreComparableBy operator (datum_val l left.now) (datum_val r right.now) }
    ensures { (l r : Reading)
        → IsTrue result ↔ ComparesTrue operator (datum_val l left.now) (datum_val r right.now) }
{
    compare_values(operator, left, right)
}

/// Returns whether the comparison of two values of one type is true.
#[inline(always)]
pub fn compare_values<V: Compared>(operator: ComparisonOperator, left: &V, right: &V) -> bool
    ensures { (l r : V.Read)
        → IsTrue result ↔ ComparesTrue operator (V.val l left.now) (V.val r right.now) }
{
    match operator {
        ComparisonOperator::Eq => are_equal(left.beside(right)),
        ComparisonOperator::Ne => !are_equal(left.beside(right)),
        ComparisonOperator::Gt => is_greater(left.beside(right)),
        ComparisonOperator::Ge => is_greater(left.beside(right)) || are_equal(left.beside(right)),
        ComparisonOperator::Lt => is_greater(right.beside(left)),
        ComparisonOperator::Le => is_greater(right.beside(left)) || are_equal(left.beside(right)),
    }
}

/// Whether they are equal. Null equals itself and nothing else.
#[inline(always)]
fn are_equal(pair: Pair<'_>) -> bool
    ensures { (v w : Val) → IsPairOf pair.entry v w → IsTrue result ↔ AreEqual v w }
{
    match pair {
        Pair::Nulls => true,
        Pair::Bools(l, r) => l == r,
        Pair::Ints(l, r) => l == r,
        Pair::Texts(l, r) => is_same_text(l, r),
        Pair::Dates(l, r) => l == r,
        Pair::Moments(l, r) => l.instant_nanos() == r.instant_nanos(),
        Pair::Guids(l, r) => l == r,
        Pair::Enums(l, r) => l == r,
        Pair::Unlike => false,
    }
}

/// Whether the left one is the greater. Null is greater than nothing, and nothing than null.
#[inline(always)]
fn is_greater(pair: Pair<'_>) -> bool
    ensures { (v w : Val) → IsPairOf pair.entry v w → IsTrue result ↔ IsGreater v w }
{
    match pair {
        Pair::Bools(l, r) => l && !r,
        Pair::Ints(l, r) => l > r,
        Pair::Texts(l, r) => is_greater_text(l, r),
        Pair::Dates(l, r) => l > r,
        Pair::Moments(l, r) => l.instant_nanos() > r.instant_nanos(),
        Pair::Nulls | Pair::Guids(_, _) | Pair::Enums(_, _) | Pair::Unlike => false,
    }
}

/// Whether the texts have the same characters.
fn is_same_text(left: &str, right: &str) -> bool
    ensures { IsTrue result ↔ (chars left.now ≡ chars right.now) }
{
    left == right
}

/// Whether the left text is the greater one, by the scalar values of its characters. The bytes are in that order.
fn is_greater_text(left: &str, right: &str) -> bool
    ensures { IsTrue result ↔ (text_cmp left.now right.now ≡ Greater) }
{
    left > right
}
