//! What functions make of values that are there. A text is made of a text that is borrowed or owned; an owned one keeps
//! its buffer where its part is what is made.
ghost use Rattle.std.specs.Prelude.{◌≡◌, ℤ, List, [], ◌∷◌, Err, Some, chars, encode_utf8_all, string_bytes, IfOk, IfErr, IsSomeAnd};
ghost use Rattle.std.specs.Cow.{cow_str_bytes};
ghost use Rattle.edm_values.specs.MomentParts.{MomentParts};
ghost use Rattle.edm_values.specs.Val.{date, moment, text, whole};
ghost use Rattle.odata_functions.specs.DatumVal.{Reading, datum_val};
ghost use Rattle.odata_functions.specs.Texts.{CountComes};
ghost use Rattle.odata_filter_operations.specs.CallGives.{CallGives};
ghost use Rattle.odata_filter_operations.specs.FunctionGives.{FunctionGives, GivesCount};
ghost use Rattle.odata_filter_operations.specs.Outcome.{gives};
ghost use Rattle.odata_filter_operations.specs.FunctionCalls.{Applies, MakesText};
ghost use Rattle.odata_filter_operations.specs.DatumView.{answer_outcome};
ghost use Rattle.odata_filter_operations.specs.Reports.{Reports};

use super::eval_fault::EvalFault;
use edm_values::{Datum, Moment};
use jiff::civil::Date;
use odata_functions::{
    ArithFault, concat, contains, date_of, day_of, ends_with, hour_of, index_of, minute_of,
    month_of, offset_of, part_of_text, rest_of_text, second_of, starts_with, text_length, to_lower,
    to_upper, trim_text, year_of,
};
use odata_signatures::Function;
use std::alloc::{AllocError, Global};
use std::borrow::CowStr;

/// Returns the result of a function on one value.
pub fn called_on_one<'e>(
    alloc: Global,
    function: Function,
    first: Datum<'e>,
) -> Result<Datum<'e>, EvalFault>
    requires { (r : Reading) → Applies function (datum_val r first ∷ []) }
    ensures { (now : MomentParts) (r s : Reading) → Reports (MakesText function)
        (CallGives now function (datum_val r first.entry ∷ [])) (answer_outcome (datum_val s) result) }
{
    match first {
        Datum::Text(text) => called_on_text(alloc, function, text),
        Datum::Date(date) => called_on_date(function, date),
        Datum::Moment(moment) => called_on_moment(function, &moment),
        _ => Ok(Datum::Null),
    }
}

/// What a function makes of a date.
fn called_on_date<'e>(function: Function, given: Date) -> Result<Datum<'e>, EvalFault>
    requires { Applies function (date given ∷ []) }
    ensures { (now : MomentParts) (s : Reading) → IsSomeAnd (answer_outcome (datum_val s) result)
        (FunctionGives now function (date given ∷ [])) }
{
    match function {
        Function::Year => int32(year_of(given)),
        Function::Month => int32(month_of(given)),
        Function::Day => int32(day_of(given)),
        // `Applies`: no other function takes a date.
        _ => Ok(Datum::Null),
    }
}

/// What a function makes of a moment, by its own clock. What takes a date takes that of the moment.
fn called_on_moment<'e>(function: Function, given: &Moment) -> Result<Datum<'e>, EvalFault>
    requires { Applies function (moment given.now ∷ []) }
    ensures { (now : MomentParts) (s : Reading) → IsSomeAnd (answer_outcome (datum_val s) result)
        (FunctionGives now function (moment given.now ∷ [])) }
{
    match function {
        Function::Hour => int32(hour_of(given)),
        Function::Minute => int32(minute_of(given)),
        Function::Second => int32(second_of(given)),
        Function::TotalOffsetMinutes => int32(offset_of(given)),
        Function::Date => Ok(Datum::Date(date_of(given))),
        _ => called_on_date(function, date_of(given)),
    }
}

/// What a function makes of one text.
fn called_on_text<'e>(
    alloc: Global,
    function: Function,
    given: CowStr<'e, Global>,
) -> Result<Datum<'e>, EvalFault>
    requires { Applies function (text (cow_str_bytes given) ∷ []) }
    ensures { (now : MomentParts) (s : Reading) → Reports (MakesText function)
        (FunctionGives now function (text (cow_str_bytes given.entry) ∷ [])) (answer_outcome (datum_val s) result) }
{
    match function {
        Function::Length => counted(text_length(given.as_str())),
        Function::Trim => Ok(text_datum(trim_text(given))),
        Function::ToLower => made(to_lower(alloc, given.as_str())),
        Function::ToUpper => made(to_upper(alloc, given.as_str())),
        // `Applies`: no other function takes one text.
        _ => Ok(Datum::Null),
    }
}

/// Returns the result of a function on two values.
#[inline(always)]
pub fn called_on_two<'e>(
    alloc: Global,
    function: Function,
    first: Datum<'e>,
    second: Datum<'e>,
) -> Result<Datum<'e>, EvalFault>
    requires { (r : Reading) → Applies function (datum_val r first ∷ datum_val r second ∷ []) }
    ensures { (now : MomentParts) (r s : Reading) → Reports (MakesText function)
        (CallGives now function (datum_val r first.entry ∷ datum_val r second.entry ∷ []))
        (answer_outcome (datum_val s) result) }
{
    match first {
        Datum::Text(text) => match second {
            Datum::Text(part) => called_on_texts(alloc, function, text.as_str(), part.as_str()),
            Datum::Int(start) => Ok(text_datum(rest_of_text(text, start))),
            _ => Ok(Datum::Null),
        },
        _ => Ok(Datum::Null),
    }
}

/// What a function makes of two texts.
#[inline(always)]
fn called_on_texts<'e>(
    alloc: Global,
    function: Function,
    given: &str,
    part: &str,
) -> Result<Datum<'e>, EvalFault>
    requires { Applies function (text given.now ∷ text part.now ∷ []) }
    ensures { (now : MomentParts) (s : Reading) → Reports (MakesText function)
        (FunctionGives now function (text given.now ∷ text part.now ∷ [])) (answer_outcome (datum_val s) result) }
{
    match function {
        Function::Contains => Ok(Datum::Bool(contains(given, part))),
        Function::StartsWith => Ok(Datum::Bool(starts_with(given, part))),
        Function::EndsWith => Ok(Datum::Bool(ends_with(given, part))),
        Function::IndexOf => counted(index_of(given, part)),
        Function::Concat => made(concat(alloc, given, part)),
        // `Applies`: no other function takes two texts.
        _ => Ok(Datum::Null),
    }
}

/// Returns the result of a function on three values: a part of a text.
pub fn called_on_three<'e>(
    function: Function,
    first: Datum<'e>,
    second: Datum<'e>,
    third: Datum<'e>,
) -> Result<Datum<'e>, EvalFault>
    requires { (r : Reading) → Applies function (datum_val r first ∷ datum_val r second ∷ datum_val r third ∷ []) }
    ensures { (now : MomentParts) (r s : Reading) → Reports (MakesText function)
        (CallGives now function (datum_val r first.entry ∷ datum_val r second.entry ∷ datum_val r third.entry ∷ []))
        (answer_outcome (datum_val s) result) }
{
    match first {
        Datum::Text(text) => match second {
            Datum::Int(start) => match third {
                Datum::Int(most) => Ok(text_datum(part_of_text(text, start, most))),
                _ => Ok(Datum::Null),
            },
            _ => Ok(Datum::Null),
        },
        _ => Ok(Datum::Null),
    }
}

/// A whole number of `Edm.Int32`, or Overflow.
fn int32<'e>(n: i64) -> Result<Datum<'e>, EvalFault>
    ensures { (s : Reading) → IsSomeAnd (answer_outcome (datum_val s) result) (GivesCount n) }
{
    match i32::try_from(n) {
        Ok(_) => Ok(Datum::Int(n)),
        Err(_) => Err(EvalFault::Overflow),
    }
}

/// A number of characters, or Overflow.
fn counted<'e>(answer: Result<i64, ArithFault>) -> Result<Datum<'e>, EvalFault>
    ensures { (n : ℤ) (s : Reading) → CountComes n answer
        → IsSomeAnd (answer_outcome (datum_val s) result) (GivesCount n) }
{
    match answer {
        Ok(n) => Ok(Datum::Int(n)),
        Err(ArithFault::Overflow) => Err(EvalFault::Overflow),
        Err(ArithFault::DivideByZero) => Err(EvalFault::DivideByZero),
    }
}

/// A text, by its characters.
fn text_datum<'e>(given: CowStr<'e, Global>) -> Datum<'e>
    ensures { (s : Reading) → datum_val s result ≡ text (encode_utf8_all (chars (cow_str_bytes given.entry))) }
{
    // That it is text is known once it has been borrowed.
    let _characters = given.as_str();
    Datum::Text(given)
}

/// A text that was made, or running out of memory.
fn made<'e>(given: Result<String, AllocError>) -> Result<Datum<'e>, EvalFault>
    ensures text { IfOk given (λ t. (s : Reading) → answer_outcome (datum_val s) result
        ≡ Some (gives (text (encode_utf8_all (chars (string_bytes t)))))) }
    ensures memory { IfErr given (λ refused. result ≡ Err EvalFault.Memory) }
{
    match given {
        Ok(text) => Ok(text_datum(CowStr::Owned(text))),
        Err(_) => Err(EvalFault::Memory),
    }
}
