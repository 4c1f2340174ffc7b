//! Two values as an operator compares them.
ghost use Rattle.edm_values.specs.Val.{Val};
ghost use Rattle.odata_functions.specs.DatumVal.{Reading, datum_val};
ghost use Rattle.odata_functions.specs.KeptVal.{Contents, kept_val, number_val};
ghost use Rattle.odata_functions.specs.Pair.{IsPairOf};

use edm_values::{Datum, Moment, Value};
use jiff::civil::Date;
use uuid::Uuid;

/// Two values of one kind, or two that are unlike. Nothing of them is owned.
pub enum Pair<'v> {
    Nulls,
    Bools(bool, bool),
    Ints(i64, i64),
    Texts(&'v str, &'v str),
    Dates(&'v Date, &'v Date),
    Moments(&'v Moment, &'v Moment),
    Guids(&'v Uuid, &'v Uuid),
    Enums(i64, i64),
    /// Null beside a value, values of two kinds, records or lists: they are not equal, and neither is the greater one.
    Unlike,
}

/// A type whose values an operator compares.
pub trait Compared {
    ghost use Rattle.edm_values.specs.Val.{Val};
    ghost use Rattle.odata_functions.specs.Pair.{IsPairOf};

    // how records and lists are read
    ghost Read: { Type 0 };

    // the value that it stands for
    ghost val: { Read → Self → Val };

    /// Puts it on the left of another one.
    fn beside<'v>(&'v self, other: &'v Self) -> Pair<'v>
        ensures { (l r : Read) → IsPairOf result (val l self.now) (val r other.now) };
}

impl Compared for Datum<'_> {
    ghost Read = { Reading };

    ghost val = { datum_val };

    #[inline(always)]
    fn beside<'v>(&'v self, other: &'v Self) -> Pair<'v> {
        match (self, other) {
            (Datum::Null, Datum::Null) => Pair::Nulls,
            (Datum::Bool(l), Datum::Bool(r)) => Pair::Bools(*l, *r),
            (Datum::Int(l), Datum::Int(r)) => Pair::Ints(*l, *r),
            (Datum::Text(l), Datum::Text(r)) => Pair::Texts(l.as_str(), r.as_str()),
            (Datum::Date(l), Datum::Date(r)) => Pair::Dates(l, r),
            (Datum::Moment(l), Datum::Moment(r)) => Pair::Moments(l, r),
            (Datum::Guid(l), Datum::Guid(r)) => Pair::Guids(l, r),
            (Datum::Enum(l), Datum::Enum(r)) => Pair::Enums(*l, *r),
            _ => Pair::Unlike,
        }
    }
}

impl Compared for Value {
    ghost Read = { Contents };

    ghost val = { kept_val };

    #[inline(always)]
    fn beside<'v>(&'v self, other: &'v Self) -> Pair<'v> {
        match (self, other) {
            (Value::Null, Value::Null) => Pair::Nulls,
            (Value::Bool(l), Value::Bool(r)) => Pair::Bools(*l, *r),
            (Value::Int(l), Value::Int(r)) => Pair::Ints(*l, *r),
            (Value::Text(l), Value::Text(r)) => Pair::Texts(l.as_str(), r.as_str()),
            (Value::Date(l), Value::Date(r)) => Pair::Dates(l, r),
            (Value::Moment(l), Value::Moment(r)) => Pair::Moments(l, r),
            (Value::Guid(l), Value::Guid(r)) => Pair::Guids(l, r),
            (Value::Enum(l), Value::Enum(r)) => Pair::Enums(*l, *r),
            _ => Pair::Unlike,
        }
    }
}

/// A number, or None for null.
impl Compared for Option<i64> {
    ghost Read = { Unit {0} };

    ghost val = { λ read. number_val };

    #[inline(always)]
    fn beside<'v>(&'v self, other: &'v Self) -> Pair<'v> {
        match (self, other) {
            (None, None) => Pair::Nulls,
            (Some(l), Some(r)) => Pair::Ints(*l, *r),
            _ => Pair::Unlike,
        }
    }
}
