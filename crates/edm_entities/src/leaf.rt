//! Values of the types without parts, from JSON values without parts; of null and of nothing.
ghost use Rattle.std.specs.Prelude.{◌≡◌, ◌≢◌, ◌⊎◌, true, false, None, Ok, Err, IfOk, IfErr};
ghost use Rattle.serde_json.specs.Data.{Data, boolean, string};
ghost use Rattle.edm_entities.specs.private.Walk.{IsRecordOf};
ghost use Rattle.csdl_schema.specs.ExprType.{ExprType};
ghost use Rattle.csdl_schema.specs.SchemaModel.{Slots, slots_of, type_name_at};
ghost use Rattle.edm_entities.specs.FitsPrimitive.{FitsNumber, FitsPrimitive, FitsText, IsMemberText, IsNumberFlaw, IsPrimitiveFlaw, IsTextFlaw};
ghost use Rattle.edm_entities.specs.Row.{val_of};
ghost use Rattle.edm_entities.specs.private.Faults.{OnFlaw};
ghost use Rattle.edm_entities.specs.private.Scalars.{IsJsonNumber, IsScalar};

use super::flaw::{ReadFault, ReadFlaw, fault_here};
use super::scalar::{JsonNumber, Scalar};
use csdl_schema::{EnumId, Property, Schema};
use edm_values::{Prim, Value, read_date, read_guid, read_moment, take_few};
use std::alloc::Global;

/// Reads what is expected as a primitive type.
pub(crate) fn read_primitive(
    alloc: Global,
    wanted: Prim,
    scalar: Scalar<'_>,
) -> Result<Value, ReadFlaw>
    ensures fits { (json : Data) (slots : Slots) (type : ExprType) → IsScalar scalar.entry json
        → IfOk result (λ v. FitsPrimitive wanted json (val_of v slots.properties type)) }
    ensures flaw { (json : Data) → IsScalar scalar.entry json
        → IfErr result (λ f. OnFlaw f (IsPrimitiveFlaw wanted json)) }
    ensures memory { IfErr result (λ f. f ≡ ReadFlaw.Memory → wanted ≡ Prim.String) }
{
    match scalar {
        Scalar::Truth(truth) => read_truth(wanted, truth),
        Scalar::Number(number) => read_number(wanted, number),
        Scalar::Text(text) => read_text(alloc, wanted, text),
        Scalar::Other => Err(ReadFlaw::WrongKind),
    }
}

fn read_truth(wanted: Prim, truth: bool) -> Result<Value, ReadFlaw>
    ensures fits { (slots : Slots) (type : ExprType)
        → IfOk result (λ v. FitsPrimitive wanted (boolean truth) (val_of v slots.properties type)) }
    ensures flaw { IfErr result (λ f. OnFlaw f (IsPrimitiveFlaw wanted (boolean truth))) }
    ensures no_memory { IfErr result (λ f. f ≢ ReadFlaw.Memory) }
{
    match wanted {
        Prim::Bool => Ok(Value::Bool(truth)),
        _ => Err(ReadFlaw::WrongKind),
    }
}

fn read_number(wanted: Prim, number: JsonNumber) -> Result<Value, ReadFlaw>
    ensures fits { (json : Data) (slots : Slots) (type : ExprType) → IsJsonNumber number json
        → IfOk result (λ v. FitsPrimitive wanted json (val_of v slots.properties type)) }
    ensures flaw { (json : Data) → IsJsonNumber number json
        → IfErr result (λ f. OnFlaw f (IsPrimitiveFlaw wanted json)) }
    ensures no_memory { IfErr result (λ f. f ≢ ReadFlaw.Memory) }
{
    if !wanted.is_number() {
        return Err(ReadFlaw::WrongKind);
    }
    match number {
        JsonNumber::Whole(n) => if wanted.holds_number(n) {
            Ok(Value::Int(n))
        } else {
            Err(ReadFlaw::OutOfRange)
        },
        JsonNumber::OutsideInt64 => Err(ReadFlaw::OutOfRange),
        JsonNumber::Fraction => Err(ReadFlaw::WrongKind),
    }
}

/// Reads a text where a primitive type is expected.
#[inline(always)]
pub(crate) fn read_text(alloc: Global, wanted: Prim, text: &str) -> Result<Value, ReadFlaw>
    ensures fits { (slots : Slots) (type : ExprType)
        → IfOk result (λ v. FitsPrimitive wanted (string text.now) (val_of v slots.properties type)) }
    ensures flaw { IfErr result (λ f. OnFlaw f (IsPrimitiveFlaw wanted (string text.now))) }
    ensures memory { IfErr result (λ f. f ≡ ReadFlaw.Memory → wanted ≡ Prim.String) }
{
    match wanted {
        Prim::String => match String::from_str(alloc, text) {
            Ok(text) => Ok(Value::Text(text)),
            Err(_) => Err(ReadFlaw::Memory),
        },
        Prim::Date => match read_date(text) {
            Some(date) => Ok(Value::Date(date)),
            None => Err(ReadFlaw::BadText),
        },
        Prim::DateTimeOffset => match read_moment(text) {
            Some(moment) => Ok(Value::Moment(moment)),
            None => Err(ReadFlaw::BadText),
        },
        Prim::Guid => match read_guid(text) {
            Some(guid) => Ok(Value::Guid(guid)),
            None => Err(ReadFlaw::BadText),
        },
        _ => Err(ReadFlaw::WrongKind),
    }
}

/// Reads what is expected as a number of an enumeration.
pub(crate) fn read_member(
    schema: &Schema,
    id: EnumId,
    scalar: Scalar<'_>,
) -> Result<Value, ReadFlaw>
    ensures fits { (json : Data) (slots : Slots) (type : ExprType) → IsScalar scalar.entry json → IfOk result
        (λ v. FitsText (IsMemberText ((slots_of schema.now).enumerations (type_name_at schema.now id))) json
        (val_of v slots.properties type)) }
    ensures flaw { (json : Data) → IsScalar scalar.entry json → IfErr result (λ f. OnFlaw f
        (IsTextFlaw (IsMemberText ((slots_of schema.now).enumerations (type_name_at schema.now id))) json)) }
    ensures no_memory { IfErr result (λ f. f ≢ ReadFlaw.Memory) }
{
    match scalar {
        Scalar::Text(text) => match schema.enum_value(id, text) {
            Some(n) => Ok(Value::Enum(n)),
            None => Err(ReadFlaw::BadText),
        },
        Scalar::Truth(_) => Err(ReadFlaw::WrongKind),
        Scalar::Number(_) => Err(ReadFlaw::WrongKind),
        Scalar::Other => Err(ReadFlaw::WrongKind),
    }
}

/// What was read of a value without parts.
pub(crate) fn leaf_read(read: Result<Value, ReadFlaw>) -> Result<Value, ReadFault>
    ensures value { IfOk result (λ v. read ≡ Ok v) }
    ensures fault { IfErr result (λ fault. (fault.path ≡ None) × (read ≡ Err fault.flaw)) }
{
    match read {
        Ok(value) => Ok(value),
        Err(flaw) => Err(fault_here(flaw)),
    }
}

/// The value of a property that is absent.
pub(crate) fn absent_value(property: Property) -> Result<Value, ReadFault>
    ensures value { IfOk result (λ v. (property.many ≡ false) × (property.nullable ≡ true) × (v ≡ Value.Null)) }
    ensures fault { IfErr result (λ fault. ((property.many ≡ true) ⊎ (property.nullable ≡ false))
        × (fault.path ≡ None) × (fault.flaw ≡ ReadFlaw.Missing)) }
{
    if property.many {
        return Err(fault_here(ReadFlaw::Missing));
    }
    if property.nullable {
        Ok(Value::Null)
    } else {
        Err(fault_here(ReadFlaw::Missing))
    }
}

/// The value of JSON null.
pub(crate) fn null_value(nullable: bool) -> Result<Value, ReadFault>
    ensures value { IfOk result (λ v. (nullable ≡ true) × (v ≡ Value.Null)) }
    ensures fault { IfErr result (λ fault. (nullable ≡ false) × (fault.path ≡ None)
        × (fault.flaw ≡ ReadFlaw.NullNotAllowed)) }
{
    if nullable {
        Ok(Value::Null)
    } else {
        Err(fault_here(ReadFlaw::NullNotAllowed))
    }
}

/// The record of these values; if most are null, the others stand beside their slots.
pub(crate) fn record_of(alloc: Global, values: Vec<Value>) -> Result<Value, ReadFault>
    ensures record { IfOk result (IsRecordOf values) }
    ensures fault { IfErr result (λ fault. (fault.path ≡ None) × (fault.flaw ≡ ReadFlaw.Memory)) }
{
    let mut by_slot = values;
    match take_few(alloc, &mut by_slot) {
        Ok(Some(held)) => Ok(Value::Sparse(held)),
        Ok(None) => Ok(Value::Record(by_slot)),
        Err(_) => Err(fault_here(ReadFlaw::Memory)),
    }
}
