//! Which values an operator compares.
ghost use Rattle.std.specs.Prelude.{◌↔◌, IsTrue};
ghost use Rattle.odata_functions.specs.Comparable.{AreComparableBy, HaveEquality, HaveOrder};
ghost use Rattle.odata_functions.specs.DatumVal.{Reading, datum_val};

use edm_values::Datum;
use odata_syntax::ComparisonOperator;

/// Returns whether the operator compares these values.
pub fn comparable(operator: ComparisonOperator, left: &Datum<'_>, right: &Datum<'_>) -> bool
    ensures { (l r : Reading)
        → IsTrue result ↔ AreComparableBy operator (datum_val l left.now) (datum_val r right.now) }
{
    match operator {
        ComparisonOperator::Eq | ComparisonOperator::Ne => have_equality(left, right),
        ComparisonOperator::Gt
        | ComparisonOperator::Ge
        | ComparisonOperator::Lt
        | ComparisonOperator::Le => have_order(left, right),
    }
}

/// Whether they are two values of one kind, or null and anything but a list.
fn have_equality(left: &Datum<'_>, right: &Datum<'_>) -> bool
    ensures { (l r : Reading) → IsTrue result ↔ HaveEquality (datum_val l left.now) (datum_val r right.now) }
{
    match left {
        Datum::Null => !matches!(right, Datum::List(_)),
        Datum::Bool(_) => matches!(right, Datum::Bool(_) | Datum::Null),
        Datum::Int(_) => matches!(right, Datum::Int(_) | Datum::Null),
        Datum::Text(_) => matches!(right, Datum::Text(_) | Datum::Null),
        Datum::Date(_) => matches!(right, Datum::Date(_) | Datum::Null),
        Datum::Moment(_) => matches!(right, Datum::Moment(_) | Datum::Null),
        Datum::Guid(_) => matches!(right, Datum::Guid(_) | Datum::Null),
        Datum::Enum(_) => matches!(right, Datum::Enum(_) | Datum::Null),
        Datum::Record(_) | Datum::Sparse(_) => matches!(right, Datum::Null),
        Datum::List(_) => false,
    }
}

/// Whether they are two values of one kind that has an order, or null beside such a value or null.
fn have_order(left: &Datum<'_>, right: &Datum<'_>) -> bool
    ensures { (l r : Reading) → IsTrue result ↔ HaveOrder (datum_val l left.now) (datum_val r right.now) }
{
    match left {
        Datum::Null => matches!(
            right,
            Datum::Null
                | Datum::Bool(_)
                | Datum::Int(_)
                | Datum::Text(_)
                | Datum::Date(_)
                | Datum::Moment(_)
        ),
        Datum::Bool(_) => matches!(right, Datum::Bool(_) | Datum::Null),
        Datum::Int(_) => matches!(right, Datum::Int(_) | Datum::Null),
        Datum::Text(_) => matches!(right, Datum::Text(_) | Datum::Null),
        Datum::Date(_) => matches!(right, Datum::Date(_) | Datum::Null),
        Datum::Moment(_) => matches!(right, Datum::Moment(_) | Datum::Null),
        Datum::Guid(_) | Datum::Enum(_) | Datum::Record(_) | Datum::Sparse(_) | Datum::List(_) =>
            false,
    }
}
