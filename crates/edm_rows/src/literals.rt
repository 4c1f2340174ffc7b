//! Values that are written as texts.
ghost use Rattle.std.specs.Prelude.{◌≤◌, length, IfSome};
ghost use Rattle.csdl_schema.specs.ExprType.{ExprType, primitive};
ghost use Rattle.csdl_schema.specs.SchemaModel.{Slots, slots_of, type_name_at};
ghost use Rattle.edm_entities.specs.FitsPrimitive.{IsTextValue};
ghost use Rattle.edm_entities.specs.Row.{val_of};
ghost use Rattle.edm_rows.specs.private.KeptLeaves.{PutsLeaf, PutsMember};

use csdl_schema::{EnumId, Schema};
use edm_values::{Prim, Value, read_date, read_guid, read_moment};
use json_room::{DecodeBuffer, RoomyLine, any_text_at};

/// The value of a type that stands there as a literal, and the offset after it.
pub(crate) fn literal_at(
    buffer: &mut DecodeBuffer,
    line: &RoomyLine<'_>,
    prim: Prim,
    place: usize,
) -> Option<(Value, usize)>
    requires { place ≤ length line.now }
    ensures { IfSome result (λ found. PutsLeaf line.now (primitive prim) found.0 place found.1) }
{
    let Some((text, end)) = any_text_at(line, place, buffer) else {
        return None;
    };
    match literal_of(prim, text) {
        Some(value) => Some((value, end)),
        None => None,
    }
}

/// The number of an enumeration's members that stands there as a text, and the offset after it.
pub(crate) fn member_at(
    buffer: &mut DecodeBuffer,
    schema: &Schema,
    line: &RoomyLine<'_>,
    id: EnumId,
    place: usize,
) -> Option<(i64, usize)>
    requires { place ≤ length line.now }
    ensures { IfSome result (λ found. PutsMember line.now (slots_of schema.now) (type_name_at schema.now id)
        (Value.Enum found.0) place found.1) }
{
    let Some((text, end)) = any_text_at(line, place, buffer) else {
        return None;
    };
    match schema.enum_value(id, text) {
        Some(number) => Some((number, end)),
        None => None,
    }
}

/// The value of a type that a text is the literal of.
fn literal_of(prim: Prim, text: &str) -> Option<Value>
    ensures { (slots : Slots) (type : ExprType)
        → IfSome result (λ v. IsTextValue prim text.now (val_of v slots.properties type)) }
{
    match prim {
        Prim::Date => match read_date(text) {
            Some(date) => Some(Value::Date(date)),
            None => None,
        },
        Prim::DateTimeOffset => match read_moment(text) {
            Some(moment) => Some(Value::Moment(moment)),
            None => None,
        },
        Prim::Guid => match read_guid(text) {
            Some(guid) => Some(Value::Guid(guid)),
            None => None,
        },
        _ => None,
    }
}
