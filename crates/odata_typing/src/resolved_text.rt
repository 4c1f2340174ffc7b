//! String literals that are read as texts of an enumeration.
ghost use Rattle.std.specs.Prelude.{◌≡◌, ◌∷◌, [], ◌++◌, ℕ, ℤ, List, IfSome, IfNone};
ghost use Rattle.std.specs.Option.{option_map};
ghost use Rattle.edm_values.specs.StringLiteral.{quote};
ghost use Rattle.csdl_schema.specs.ExprType.{single};
ghost use Rattle.csdl_schema.specs.SchemaModel.{slots_of, type_name_at};
ghost use Rattle.odata_signatures.specs.QuotedNumber.{IsQuotedNumber};
ghost use Rattle.odata_signatures.specs.TypeView.{expr_type, single_type};

use csdl_schema::{EnumId, Schema};
use odata_signatures::{EdmType, ValueType};

/// The role of an operand next to a value of a type, by what it quotes.
#[derive(Clone, Copy)]
pub(crate) enum ResolvedText {
    /// It is not read: it quotes nothing, or the type is that of no enumeration.
    Unread,
    /// It stands for that number of the enumeration.
    Number(i64),
    /// It is read, and stands for no number.
    Unknown,
}

ghost use Rattle.odata_typing.specs.private.ResolvedText.{IsRoleFor};

/// The role of an operand next to a value of this type, by what it quotes.
pub(crate) fn resolved_number(
    schema: &Schema,
    beside: &EdmType,
    quoted: Option<&str>,
) -> ResolvedText
    ensures { IsRoleFor (slots_of schema.now) (expr_type schema.now beside.now)
        (option_map (λ spelling. spelling.now) quoted.entry) result }
{
    match beside {
        EdmType::Single(member) => beside_value(schema, member, quoted),
        EdmType::Null => ResolvedText::Unread,
        EdmType::Collection(_) => ResolvedText::Unread,
    }
}

/// The same, next to a value of that type which is not a collection.
fn beside_value(schema: &Schema, member: &ValueType, quoted: Option<&str>) -> ResolvedText
    ensures { IsRoleFor (slots_of schema.now) (single (single_type schema.now member.now))
        (option_map (λ spelling. spelling.now) quoted.entry) result }
{
    match member {
        ValueType::Enum(id) => match quoted {
            Some(spelling) => match quoted_number(schema, *id, spelling) {
                Some(number) => ResolvedText::Number(number),
                None => ResolvedText::Unknown,
            },
            None => ResolvedText::Unread,
        },
        ValueType::Prim(_) => ResolvedText::Unread,
        ValueType::Structured(_) => ResolvedText::Unread,
    }
}

/// The number of the enumeration for which a String literal of that spelling stands.
fn quoted_number(schema: &Schema, id: EnumId, spelling: &str) -> Option<i64>
    ensures some { IfSome result (IsQuotedNumber (slots_of schema.now) (type_name_at schema.now id) spelling.now) }
    ensures none { IfNone result ((n : ℤ)
        → ¬ IsQuotedNumber (slots_of schema.now) (type_name_at schema.now id) spelling.now n) }
{
    match between_quotes(spelling) {
        Some(inner) => schema.enum_value(id, inner),
        None => None,
    }
}

/// The text between the first byte and the last one, where both are quotes.
fn between_quotes(spelling: &str) -> Option<&str>
    ensures some { IfSome result (λ inner. spelling.now ≡ quote ∷ inner.now ++ quote ∷ []) }
    ensures none { IfNone result ((inner : List ℕ) → ¬ (spelling.now ≡ quote ∷ inner ++ quote ∷ [])) }
{
    match spelling.strip_prefix('\'') {
        Some(rest) => match rest.strip_suffix('\'') {
            Some(inner) => Some(inner),
            None => None,
        },
        None => None,
    }
}
