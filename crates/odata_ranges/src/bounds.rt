ghost use Rattle.std.specs.Prelude.{◌≡◌, ◌↔◌, ◌≤◌, ℕ, ℤ, IsFalse, Some, length};
ghost use Rattle.std.specs.Str.{chars};
ghost use Rattle.edm_values.specs.NumberTypes.{IsNumberOf, IsNumberType};
ghost use Rattle.edm_values.specs.PlainVal.{plain_val};
ghost use Rattle.edm_values.specs.Val.{Val};
ghost use Rattle.edm_values.specs.declared.primitive.PrimitiveType.TheVariants.{String as EdmString};
ghost use Rattle.odata_ranges.specs.Reach.{HoldsNumber, IsBounded};
ghost use Rattle.odata_ranges.specs.Within.{HoldsCount, IsValueWithin};

use super::arithmetic_ranges::least;
use super::range::Range;
use edm_values::{Prim, Value};

/// How many characters a text may have that a row holds.
pub(crate) const MOST_CHARACTERS: i128 = 268_435_456;

/// As a bound of characters this says nothing. Counts up to it are added without end.
pub(crate) const UNBOUNDED: i128 = 4_611_686_018_427_387_904;

/// How many members a collection may have that a row holds.
pub(crate) const MOST_MEMBERS: i128 = 4_294_967_296;

/// The numbers of a type, or the lengths of its texts.
pub(crate) fn range_of_type(prim: Prim, may_be_null: bool) -> Range
    ensures bounded { IsBounded result }
    ensures numbers { IsNumberType prim → (n : ℤ) → IsNumberOf prim n ↔ HoldsNumber result n }
    ensures texts { prim ≡ EdmString → (n : ℕ) → n ≤ 268_435_456 → HoldsCount result n }
    ensures faults { IsFalse result.may_fault }
    ensures null { result.may_be_null ≡ may_be_null }
{
    match prim {
        Prim::Byte => Range::between(0, 255, may_be_null),
        Prim::SByte => Range::between(-128, 127, may_be_null),
        Prim::Int16 => Range::between(-32_768, 32_767, may_be_null),
        Prim::Int32 => Range::between(-2_147_483_648, 2_147_483_647, may_be_null),
        Prim::Int64 => Range::between(
            -9_223_372_036_854_775_808,
            9_223_372_036_854_775_807,
            may_be_null,
        ),
        Prim::String => Range::between(0, MOST_CHARACTERS, may_be_null),
        _ => Range::plain(may_be_null),
    }
}

/// How many characters a text has.
#[tactic(auto, using(std::proofs::lemmas::Str::chars_from_encodes))]
fn characters_of(text: &str) -> usize
    ensures { result ≡ length (chars text.now) }
{
    text.chars().count()
}

/// The value of a literal alone.
pub(crate) fn range_of_value(value: &Value) -> Range
    ensures bounded { IsBounded result }
    ensures within { (v : Val) → plain_val value.now ≡ Some v → IsValueWithin result v }
    ensures faults { IsFalse result.may_fault }
{
    match value {
        Value::Null => Range::plain(true),
        Value::Int(number) => {
            let number = i128::from(*number);
            Range::between(number, number, false)
        }
        Value::Text(text) => {
            let count = least(characters_of(text.as_str()) as i128, UNBOUNDED);
            Range::between(count, count, false)
        }
        _ => Range::plain(false),
    }
}
