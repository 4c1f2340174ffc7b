//! Literals read once, for all rows.
ghost use Rattle.std.specs.Prelude.{◌≡◌, ◌≢◌, Bool, IfSome, IfNone};
ghost use Rattle.csdl_schema.specs.ExprType.{ExprType};
ghost use Rattle.csdl_schema.specs.SchemaModel.{slots_of};
ghost use Rattle.odata_signatures.specs.LiteralValue.{BooleanValue, LiteralTyped};
ghost use Rattle.odata_signatures.specs.TypeThere.{IsTypeThere};
ghost use Rattle.odata_typing.specs.private.Answer.{IsReading};

use super::enumeration_literal::read_enumeration;
use csdl_schema::Schema;
use edm_values::{Prim, Value, read_date, read_guid, read_moment};
use odata_signatures::{EdmType, ValueType};
use odata_syntax::LiteralKind;

/// A literal's value with its type.
#[derive(Drop)]
pub(crate) struct Reading {
    pub(crate) edm_type: EdmType,
    pub(crate) value: Value,
}

/// What a literal stands for whose value is no text and no whole number. `None` where it has no value.
pub(crate) fn read_plain(schema: &Schema, kind: LiteralKind, spelling: &str) -> Option<Reading>
    requires text { kind ≢ LiteralKind.Str }
    requires number { kind ≢ LiteralKind.Int }
    ensures right { IfSome result (λ r. IsReading schema.now kind spelling.now r.value r.edm_type) }
    ensures there { IfSome result (λ r. IsTypeThere schema.now r.edm_type) }
    ensures none { IfNone result ((type : ExprType) → ¬ LiteralTyped (slots_of schema.now) kind spelling.now type) }
{
    match kind {
        LiteralKind::Null => Some(Reading {
            edm_type: EdmType::Null,
            value: Value::Null,
        }),
        LiteralKind::Bool => match truth_value(spelling) {
            Some(truth) => Some(primitive(Prim::Bool, Value::Bool(truth))),
            None => None,
        },
        LiteralKind::Date => match read_date(spelling) {
            Some(date) => Some(primitive(Prim::Date, Value::Date(date))),
            None => None,
        },
        LiteralKind::Moment => match read_moment(spelling) {
            Some(moment) => Some(primitive(Prim::DateTimeOffset, Value::Moment(moment))),
            None => None,
        },
        LiteralKind::Guid => match read_guid(spelling) {
            Some(guid) => Some(primitive(Prim::Guid, Value::Guid(guid))),
            None => None,
        },
        LiteralKind::EnumLit => read_member(schema, spelling),
        // Texts and whole numbers are read before, without this match.
        LiteralKind::Str | LiteralKind::Int => unreachable!(),
    }
}

/// A value of a primitive type.
#[inline(always)]
pub(crate) fn primitive(prim: Prim, value: Value) -> Reading
    ensures edm_type { result.edm_type ≡ EdmType.Single (ValueType.Prim prim) }
    ensures value { result.value ≡ value }
{
    Reading {
        edm_type: EdmType::Single(ValueType::Prim(prim)),
        value,
    }
}

/// The same of an enumeration literal.
fn read_member(schema: &Schema, spelling: &str) -> Option<Reading>
    ensures right { IfSome result
        (λ r. IsReading schema.now LiteralKind.EnumLit spelling.now r.value r.edm_type) }
    ensures there { IfSome result (λ r. IsTypeThere schema.now r.edm_type) }
    ensures none { IfNone result ((type : ExprType)
        → ¬ LiteralTyped (slots_of schema.now) LiteralKind.EnumLit spelling.now type) }
{
    match read_enumeration(schema, spelling) {
        Some(found) => Some(Reading {
            edm_type: EdmType::Single(ValueType::Enum(found.enumeration)),
            value: Value::Enum(found.number),
        }),
        None => None,
    }
}

/// `true` or `false` in any ASCII case.
fn truth_value(spelling: &str) -> Option<bool>
    ensures value { IfSome result (BooleanValue spelling.now) }
    ensures none { IfNone result ((b : Bool) → ¬ BooleanValue spelling.now b) }
{
    if spelling.eq_ignore_ascii_case("true") {
        Some(true)
    } else if spelling.eq_ignore_ascii_case("false") {
        Some(false)
    } else {
        None
    }
}
