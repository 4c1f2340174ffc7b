//! JSON values without parts, however they were read.
ghost use Rattle.serde_json.specs.Data.{number};
ghost use Rattle.serde_json.specs.View.{view, number_view};
ghost use Rattle.edm_entities.specs.private.Scalars.{IsJsonNumber, IsScalar};

use serde_json::Number;

/// A number of JSON: a whole one by its value, if `Edm.Int64` has it. One with a fraction or an exponent is no whole
/// number.
#[derive(Clone, Copy)]
pub(crate) enum JsonNumber {
    Whole(i64),
    OutsideInt64,
    Fraction,
}

/// A truth value, a number, a text, or any other JSON value: null, an array or an object.
#[derive(Clone, Copy)]
pub(crate) enum Scalar<'j> {
    Truth(bool),
    Number(JsonNumber),
    Text(&'j str),
    Other,
}

#[inline(always)]
pub(crate) fn json_number(held: &Number) -> JsonNumber
    ensures { IsJsonNumber result (number (number_view held.now)) }
{
    match held.as_i64() {
        Some(n) => JsonNumber::Whole(n),
        None => if held.is_u64() {
            JsonNumber::OutsideInt64
        } else {
            JsonNumber::Fraction
        },
    }
}

pub(crate) fn scalar_of(json: &serde_json::Value) -> Scalar<'_>
    ensures { IsScalar result (view json.now) }
{
    match json.as_str() {
        Some(text) => Scalar::Text(text),
        None => match json.as_number() {
            Some(number) => Scalar::Number(json_number(number)),
            None => match json.as_bool() {
                Some(truth) => Scalar::Truth(truth),
                None => Scalar::Other,
            },
        },
    }
}
