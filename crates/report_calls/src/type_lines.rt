//! The types of a schema, in lines.
ghost use Rattle.std.specs.Prelude.{◌≡◌, ◌++◌, ◌∷◌, [], IfOk, MatchResult, OnOk, string_bytes, unwrap_or};
ghost use Rattle.std.specs.List.{flat_map};
ghost use Rattle.csdl_schema.specs.PropertyView.{target_of};
ghost use Rattle.csdl_schema.specs.SchemaModel.{HoldsType, is_structured, name_of_kind, properties_at};
ghost use Rattle.odata_checked_filter.specs.TypeText.{primitive_name};
ghost use Rattle.report_calls.specs.TypeLines.{IsListingOf, IsNoListing, kind_word, lines_at};
ghost use Rattle.report_calls.specs.TypeLines.{nullable_word, of_items, property_line, schema_lines};
ghost use Rattle.report_calls.specs.private.TypeLines.{kind_item, kind_line, kind_words};

use call_handles::{Fault, Handle};
use csdl_schema::{Property, PropertyKind, Schema, TypeId};
use edm_values::Prim;
use std::alloc::{AllocError, Global};

/// What stands for the name of a type that is not read.
const NOT_READ: &str = "?";

/// The name of a primitive type.
fn name_of_primitive(prim: Prim) -> &'static str
    ensures { result.now ≡ primitive_name prim }
{
    match prim {
        Prim::Bool => "Edm.Boolean",
        Prim::Byte => "Edm.Byte",
        Prim::SByte => "Edm.SByte",
        Prim::Int16 => "Edm.Int16",
        Prim::Int32 => "Edm.Int32",
        Prim::Int64 => "Edm.Int64",
        Prim::String => "Edm.String",
        Prim::Date => "Edm.Date",
        Prim::DateTimeOffset => "Edm.DateTimeOffset",
        Prim::Guid => "Edm.Guid",
    }
}

/// The name of the type of a property's value, or of an item of it.
fn item_name<'s>(schema: &'s Schema, property: &Property) -> &'s str
    ensures { result.now ≡ kind_item schema.now property.now.kind (target_of property.now) }
{
    match property.kind {
        PropertyKind::Prim(prim) => name_of_primitive(prim),
        PropertyKind::Enum(id) => schema.enum_name(id).unwrap_or(NOT_READ),
        PropertyKind::Complex(id) => schema.type_name(id).unwrap_or(NOT_READ),
        PropertyKind::Opaque => NOT_READ,
        PropertyKind::Navigation => match property.target() {
            Some(id) => schema.type_name(id).unwrap_or(NOT_READ),
            None => NOT_READ,
        },
    }
}

/// The word of a property that may be null.
fn null_word(nullable: bool) -> &'static str
    ensures { result.now ≡ nullable_word nullable }
{
    if nullable { " nullable" } else { "" }
}

/// The words of a property that leads to other entities, or that filters and rows cannot have.
fn words_of(property: &Property) -> &'static str
    ensures { result.now ≡ kind_words property.now.kind (target_of property.now) }
{
    match property.kind {
        PropertyKind::Prim(_) => "",
        PropertyKind::Enum(_) => "",
        PropertyKind::Complex(_) => "",
        PropertyKind::Opaque => " not read",
        PropertyKind::Navigation => match property.target() {
            Some(_) => " navigation",
            None => " navigation not read",
        },
    }
}

/// The name of the type of one item, or of many.
fn push_items(text: &mut String, many: bool, item: &str) -> Result<(), AllocError>
    ensures { OnOk result (string_bytes text.new ≡ string_bytes text.old ++ of_items many item.now) }
{
    if many {
        text.push_str("Collection(")?;
        text.push_str(item)?;
        text.push_str(")")?;
        Ok(())
    } else {
        text.push_str(item)
    }
}

/// The end of a line.
fn push_end(text: &mut String) -> Result<(), AllocError>
    ensures { OnOk result (string_bytes text.new ≡ string_bytes text.old ++ 10 ∷ []) }
{
    text.push('\n')
}

/// The line of a property.
fn push_property(
    text: &mut String,
    schema: &Schema,
    name: &str,
    property: &Property,
) -> Result<(), AllocError>
    ensures { OnOk result (string_bytes text.new
        ≡ string_bytes text.old ++ kind_line schema.now name.now property.now) }
{
    text.push_str("  ")?;
    text.push_str(name)?;
    text.push(' ')?;
    push_items(text, property.many, item_name(schema, property))?;
    text.push_str(null_word(property.nullable))?;
    text.push_str(words_of(property))?;
    push_end(text)
}

/// The lines of the properties of a type, its base's first.
fn push_properties(text: &mut String, schema: &Schema, id: TypeId) -> Result<(), AllocError>
    ensures { OnOk result (string_bytes text.new
        ≡ string_bytes text.old ++ flat_map property_line (properties_at schema.now id)) }
{
    for slot in 0..schema.slots(id) {
        push_property(
            text,
            schema,
            schema.slot_name(id, slot),
            schema.property(id, slot),
        )?;
    }
    Ok(())
}

/// What a type is called before its name.
fn type_word(is_entity: bool) -> &'static str
    ensures { result.now ≡ kind_word is_entity }
{
    if is_entity { "entity " } else { "complex " }
}

/// The name of a type that is there.
fn whole_name(schema: &Schema, id: TypeId) -> &str
    ensures { result.now ≡ unwrap_or (name_of_kind is_structured schema.now id) [] }
{
    schema.type_name(id).unwrap_or("")
}

/// The lines of a type: its kind and name, and then its properties.
fn push_type(text: &mut String, schema: &Schema, id: TypeId) -> Result<(), AllocError>
    requires { HoldsType schema.now id }
    ensures { OnOk result (string_bytes text.new ≡ string_bytes text.old ++ lines_at schema.now id) }
{
    text.push_str(type_word(schema.is_entity(id)))?;
    text.push_str(whole_name(schema, id))?;
    push_end(text)?;
    push_properties(text, schema, id)?;
    Ok(())
}

/// The lines of what stands at an index: none of an enumeration or a type definition.
fn push_type_at(text: &mut String, schema: &Schema, index: usize) -> Result<(), AllocError>
    ensures { OnOk result (string_bytes text.new ≡ string_bytes text.old ++ lines_at schema.now index) }
{
    match schema.type_at(index) {
        Some(id) => push_type(text, schema, id),
        None => Ok(()),
    }
}

/// The lines of all entity and complex types.
fn lines_of_schema(alloc: Global, schema: &Schema) -> Result<String, AllocError>
    ensures { IfOk result (λ lines. string_bytes lines ≡ schema_lines schema.now) }
{
    let mut text = String::new(alloc);
    for index in 0..schema.type_count() {
        push_type_at(&mut text, schema, index)?;
    }
    Ok(text)
}

/// The lines of one type.
fn lines_of_type(alloc: Global, schema: &Schema, id: TypeId) -> Result<String, AllocError>
    requires { HoldsType schema.now id }
    ensures { IfOk result (λ lines. string_bytes lines ≡ lines_at schema.now id) }
{
    let mut text = String::new(alloc);
    push_type(&mut text, schema, id)?;
    Ok(text)
}

/// The types of a handle: all of a schema, or the one that it is.
pub(crate) fn types_of(alloc: Global, given: &Handle) -> Result<String, Fault>
    ensures { MatchResult result (λ lines. IsListingOf given.now (string_bytes lines)) (IsNoListing given.now) }
{
    let lines = match given {
        Handle::Schema(held) => lines_of_schema(alloc, &held.schema),
        Handle::Type(held) => lines_of_type(alloc, &held.schema, held.id),
        _ => return Err(Fault::OtherKind),
    };
    match lines {
        Ok(lines) => Ok(lines),
        Err(_) => Err(Fault::Memory),
    }
}
