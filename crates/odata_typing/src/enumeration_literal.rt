//! Enumeration literals: the name of an enumeration and, between quotes, a text of its members (OData ABNF 4.01,
//! section 7, `enum`).
ghost use Rattle.std.specs.Prelude.{ℕ, ℤ, List, Some, IfSome, IfNone};
ghost use Rattle.csdl_schema.specs.SchemaModel.{HoldsEnumeration, slots_of, type_name_at};
ghost use Rattle.odata_signatures.specs.LiteralValue.{EnumerationLiteral, IsNameAndText, NamesNumber};

use csdl_schema::{EnumId, Schema};
use odata_signatures::enumeration_literals_have_one_name;

/// An enumeration, and a number of it.
#[derive(Clone, Copy)]
pub(crate) struct EnumerationNumber {
    pub(crate) enumeration: EnumId,
    pub(crate) number: i64,
}

/// What the literal stands for. `None` where no enumeration goes by its name, or its text has no value there.
pub(crate) fn read_enumeration(schema: &Schema, spelling: &str) -> Option<EnumerationNumber>
    ensures value { IfSome result (λ found. EnumerationLiteral (slots_of schema.now) spelling.now
        (type_name_at schema.now found.enumeration) found.number) }
    ensures held { IfSome result (λ found. HoldsEnumeration schema.now found.enumeration) }
    ensures none { IfNone result ((qualified : List ℕ) (n : ℤ)
        → ¬ EnumerationLiteral (slots_of schema.now) spelling.now qualified n) }
{
    enumeration_literals_have_one_name();
    match name_and_text(spelling) {
        Some((name, text)) => number_of(schema, name, text),
        None => None,
    }
}

/// The number that a text stands for in the enumeration that goes by a name.
fn number_of(schema: &Schema, name: &str, text: &str) -> Option<EnumerationNumber>
    ensures value { IfSome result (λ found. NamesNumber (slots_of schema.now) name.now text.now
        (type_name_at schema.now found.enumeration) found.number) }
    ensures held { IfSome result (λ found. HoldsEnumeration schema.now found.enumeration) }
    ensures none { IfNone result ((qualified : List ℕ) (n : ℤ)
        → ¬ NamesNumber (slots_of schema.now) name.now text.now qualified n) }
{
    match schema.enum_named(name) {
        Some(enumeration) => match schema.enum_value(enumeration, text) {
            Some(number) => Some(EnumerationNumber {
                enumeration,
                number,
            }),
            None => None,
        },
        None => None,
    }
}

/// The name before the first quote, and the text between that and the last one.
fn name_and_text(spelling: &str) -> Option<(&str, &str)>
    ensures some { IfSome result (λ parts. IsNameAndText spelling.now parts.0.now parts.1.now) }
    ensures none { IfNone result ((asked inner : List ℕ) → ¬ IsNameAndText spelling.now asked inner) }
{
    match spelling.split_once('\'') {
        Some((name, quoted)) => match quoted.strip_suffix('\'') {
            Some(text) => Some((name, text)),
            None => None,
        },
        None => None,
    }
}
