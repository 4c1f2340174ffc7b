//! Enumerations as they are declared (CSDL JSON 4.01, section 10).
ghost use Rattle.std.specs.Prelude.{◌≡◌, codes, IfSome, map};
ghost use Rattle.std.specs.List.{flat_map};
ghost use Rattle.serde_json.specs.View.{view, members_view};
ghost use Rattle.edm_values.specs.NumberTypes.{IsNumberType, IsNumberOf};
ghost use Rattle.csdl_declarations.specs.EnumerationDeclaration.{declared_enumeration, declared_member, enumeration_faults, member_faults, member_number, number_of, number_type_named, underlying_at};
ghost use Rattle.csdl_declarations.specs.FaultView.{Reads};
ghost use Rattle.csdl_declarations.specs.Members.{declared_among};
ghost use Rattle.csdl_declarations.specs.private.DocumentView.{member_view};

use super::member::{Member, count_declared, is_true_at, is_truth_if_given};
use super::names::is_read_over;
use super::refusals::{bad_enum_member, bad_type};
use super::schema_fault::SchemaFault;
use edm_enumerations::Enumeration;
use edm_values::Prim;
use odata_text::is_identifier;
use serde_json::{Map, Value};
use std::alloc::Global;

fn number_type_named(name: &str) -> Option<Prim>
    ensures value { result ≡ number_type_named name.now }
    ensures number { IfSome result IsNumberType }
{
    if name == "Edm.Byte" {
        Some(Prim::Byte)
    } else if name == "Edm.SByte" {
        Some(Prim::SByte)
    } else if name == "Edm.Int16" {
        Some(Prim::Int16)
    } else if name == "Edm.Int32" {
        Some(Prim::Int32)
    } else if name == "Edm.Int64" {
        Some(Prim::Int64)
    } else {
        None
    }
}

/// The type of the numbers, if `$UnderlyingType` is left out or names a number type.
fn underlying_at(value: &Value) -> Option<Prim>
    ensures value { result ≡ underlying_at (view value.now) }
    ensures number { IfSome result IsNumberType }
{
    match value.get("$UnderlyingType") {
        Some(given) => match given.as_str() {
            Some(name) => number_type_named(name),
            None => None,
        },
        None => Some(Prim::Int32),
    }
}

/// The whole number of the type that a value is, if it is one.
fn number_of(underlying: Prim, value: &Value) -> Option<i64>
    ensures value { result ≡ number_of underlying (view value.now) }
    ensures within { IfSome result (IsNumberOf underlying) }
{
    match value.as_i64() {
        Some(number) => {
            if underlying.holds_number(number) {
                Some(number)
            } else {
                None
            }
        }
        None => None,
    }
}

/// The number of a member, if it is one.
fn member_number(underlying: Prim, member: Member<'_>) -> Option<i64>
    ensures value { result ≡ member_number underlying (member_view member.entry) }
    ensures within { IfSome result (IsNumberOf underlying) }
{
    if is_identifier(member.name) {
        number_of(underlying, member.value)
    } else {
        None
    }
}

/// The enumeration of the members that declare something, or `BadEnumMember` of the first that is none.
fn read_members(
    alloc: Global,
    owner: &str,
    underlying: Prim,
    is_flags: bool,
    members: &Map<String, Value>,
) -> Result<Enumeration, SchemaFault>
    requires { IsNumberType underlying }
    ensures { Reads result
        (flat_map (member_faults owner.now underlying) (declared_among (members_view members.now.entries)))
        (λ e. e ≡ record {
          underlying = underlying;
          is_flags = is_flags;
          members = map (declared_member underlying) (declared_among (members_view members.now.entries));
        }) }
{
    let declared = count_declared(members);
    let mut enumeration = Enumeration::with_capacity(alloc, underlying, is_flags, declared)?;
    for (key, value) in members.iter() {
        let name = key.as_str();
        if !is_read_over(name) {
            let Some(number) = member_number(underlying, Member { name, value }) else {
                return Err(bad_enum_member(alloc, owner, name));
            };
            enumeration.add_member(name.to_owned(alloc)?, number)?;
        }
    }
    Ok(enumeration)
}

/// The enumeration that a declaration gives, or the first fault in its shape or among its members.
pub(crate) fn read_enumeration(
    alloc: Global,
    owner: &str,
    value: &Value,
) -> Result<Enumeration, SchemaFault>
    ensures { Reads result (enumeration_faults owner.now (view value.now))
        (λ e. e ≡ declared_enumeration (view value.now)) }
{
    match underlying_at(value) {
        Some(underlying) => {
            if !is_truth_if_given(value, "$IsFlags") {
                return Err(bad_type(alloc, owner));
            }
            let is_flags = is_true_at(value, "$IsFlags");
            match value.as_object() {
                Some(members) => read_members(alloc, owner, underlying, is_flags, members),
                None => Ok(Enumeration::new(alloc, underlying, is_flags)),
            }
        }
        None => Err(bad_type(alloc, owner)),
    }
}
