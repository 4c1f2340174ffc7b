//! The text that explains a checked filter, a line a node, written from its list.
ghost use Rattle.std.specs.Prelude.{◌≡◌, ◌*◌, ◌∷◌, [], ◌++◌, ◌<◌, codes, decimal, length};
ghost use Rattle.std.specs.Prelude.{replicate, string_bytes, IfOk, OnOk};
ghost use Rattle.odata_syntax.specs.Lexeme.{quantifier_word};
ghost use Rattle.odata_checked_filter.specs.Explanation.{IsExplanation, span_text};
ghost use Rattle.odata_checked_filter.specs.TypeText.{primitive_name, type_text, value_type_text};
ghost use Rattle.odata_checked_filter.specs.private.Explanation.{IsLinePut, kind_label, listed_line, still_around};

use super::checked::Checked;
use super::checked_node::{CheckedNode, NodeKind};
use super::kind_words::kind_word;
use csdl_schema::Schema;
use edm_values::Prim;
use itoa::Buffer;
use odata_signatures::{EdmType, Function, ValueType};
use odata_syntax::Quantifier;
use odata_text::Span;
use std::alloc::{AllocError, Global};

/// The lines of the filter's nodes in pre-order. A node lies as deep as many nodes before it stop after it, so that
/// the walk recurses nowhere.
pub(crate) fn explanation_of(alloc: Global, checked: &Checked<'_>) -> Result<String, AllocError>
    ensures { IfOk result (λ text. IsExplanation checked.now (string_bytes text)) }
{
    let mut text = String::new(alloc);
    let mut around = Vec::new(alloc);
    let count = checked.list().nodes().len();
    for place in 0..count {
        push_line(checked, place, &mut around, &mut text)?;
    }
    Ok(text)
}

/// Puts the line of the node at an index after the others. `around` is where the nodes stop that lie around the last
/// one, and that one itself.
fn push_line(
    checked: &Checked<'_>,
    place: usize,
    around: &mut Vec<usize>,
    text: &mut String,
) -> Result<(), AllocError>
    requires { place < length checked.now.list.nodes }
    ensures { OnOk result (IsLinePut checked.now.schema checked.now.list place around.old.items around.new.items
        (string_bytes text.old) (string_bytes text.new)) }
{
    let list = checked.list();
    let node = list.node(place);
    let stop = node.stop;
    let schema = checked.schema();
    forget_stopped(around, place);
    let depth = around.as_slice().len();
    push_node(text, schema, depth, &node, list.text(place))?;
    around.push(stop)?;
    Ok(())
}

/// Of the nodes that stop there, those that lie around the one at an index.
fn forget_stopped(around: &mut Vec<usize>, place: usize)
    ensures { around.new.items ≡ still_around place around.old.items }
{
    around.retain(|stop| place < *stop);
}

/// The line of a node, and its end.
fn push_node(
    text: &mut String,
    schema: &Schema,
    depth: usize,
    node: &CheckedNode,
    beside: &str,
) -> Result<(), AllocError>
    ensures { OnOk result (string_bytes text.new
        ≡ string_bytes text.old ++ (listed_line schema.now depth node.now beside.now ++ 10 ∷ [])) }
{
    push_indent(text, depth)?;
    push_span(text, node.span)?;
    push_between(text, node.kind, beside)?;
    push_type(text, schema, node.edm_type)?;
    push_end(text)
}

/// The end of a line.
fn push_end(text: &mut String) -> Result<(), AllocError>
    ensures { OnOk result (string_bytes text.new ≡ string_bytes text.old ++ 10 ∷ []) }
{
    text.push('\n')
}

/// Two spaces for each node around.
fn push_indent(text: &mut String, depth: usize) -> Result<(), AllocError>
    ensures { OnOk result (string_bytes text.new ≡ string_bytes text.old ++ replicate (2 * depth) 32) }
{
    for _done in 0..depth {
        text.push_str("  ")?;
    }
    Ok(())
}

/// A number in decimal.
fn push_number(text: &mut String, number: usize) -> Result<(), AllocError>
    ensures { OnOk result (string_bytes text.new ≡ string_bytes text.old ++ decimal number) }
{
    let mut buffer = Buffer::new();
    text.push_str(buffer.format(number))
}

/// Where a node starts and stops.
fn push_span(text: &mut String, span: Span) -> Result<(), AllocError>
    ensures { OnOk result (string_bytes text.new ≡ string_bytes text.old ++ span_text span) }
{
    push_number(text, span.start)?;
    text.push_str("..")?;
    push_number(text, span.stop)
}

/// What a node is called, between spaces.
fn push_between(text: &mut String, kind: NodeKind, beside: &str) -> Result<(), AllocError>
    ensures { OnOk result (string_bytes text.new
        ≡ string_bytes text.old ++ (32 ∷ (kind_label kind beside.now ++ 32 ∷ []))) }
{
    text.push(' ')?;
    push_label(text, kind, beside)?;
    text.push(' ')
}

/// What a node of that kind is called, by its text.
fn push_label(text: &mut String, kind: NodeKind, beside: &str) -> Result<(), AllocError>
    ensures { OnOk result (string_bytes text.new ≡ string_bytes text.old ++ kind_label kind beside.now) }
{
    match kind {
        NodeKind::Literal { .. } => text.push_str("literal"),
        NodeKind::It => text.push_str("$it"),
        NodeKind::Property { .. } => push_named(text, "property ", beside),
        NodeKind::Variable { .. } => push_named(text, "variable ", beside),
        NodeKind::Member { .. } => push_named(text, "member ", beside),
        NodeKind::Count => text.push_str("$count"),
        NodeKind::AnyItem => text.push_str("any"),
        NodeKind::Lambda { quantifier } => push_named(text, quantifier_label(quantifier), beside),
        NodeKind::Neg => text.push_str(kind_word(kind)),
        NodeKind::Not => text.push_str(kind_word(kind)),
        NodeKind::Binary { .. } => text.push_str(kind_word(kind)),
        NodeKind::Has => text.push_str(kind_word(kind)),
        NodeKind::InList => text.push_str(kind_word(kind)),
        NodeKind::InPath => text.push_str(kind_word(kind)),
        NodeKind::Call { function } => text.push_str(function.name()),
        NodeKind::Now => text.push_str(Function::Now.name()),
    }
}

/// What a lambda operator is called before the name of its variable.
fn quantifier_label(quantifier: Quantifier) -> &'static str
    ensures { result.now ≡ quantifier_word quantifier ++ 32 ∷ [] }
{
    match quantifier {
        Quantifier::Any => "any ",
        Quantifier::All => "all ",
    }
}

/// A word, and a name after it.
fn push_named(text: &mut String, word: &str, name: &str) -> Result<(), AllocError>
    ensures { OnOk result (string_bytes text.new ≡ string_bytes text.old ++ (word.now ++ name.now)) }
{
    text.push_str(word)?;
    text.push_str(name)
}

/// The type of an expression.
fn push_type(text: &mut String, schema: &Schema, edm_type: EdmType) -> Result<(), AllocError>
    ensures { OnOk result (string_bytes text.new ≡ string_bytes text.old ++ type_text schema.now edm_type) }
{
    match edm_type {
        EdmType::Null => text.push_str("Null"),
        EdmType::Single(value_type) => text.push_str(value_type_name(schema, value_type)),
        EdmType::Collection(value_type) => {
            push_collection(text, value_type_name(schema, value_type))
        }
    }
}

/// The type of a collection of values whose type has that name.
fn push_collection(text: &mut String, name: &str) -> Result<(), AllocError>
    ensures { OnOk result (string_bytes text.new
        ≡ string_bytes text.old ++ (codes "Collection(" ++ (name.now ++ codes ")"))) }
{
    text.push_str("Collection(")?;
    text.push_str(name)?;
    text.push_str(")")
}

/// The qualified name of the type of one value; the empty text where the schema does not hold it.
fn value_type_name(schema: &Schema, value_type: ValueType) -> &str
    ensures { result.now ≡ value_type_text schema.now value_type }
{
    match value_type {
        ValueType::Prim(prim) => primitive_type_name(prim),
        ValueType::Enum(id) => schema.enum_name(id).unwrap_or(""),
        ValueType::Structured(id) => schema.type_name(id).unwrap_or(""),
    }
}

/// The qualified name of a primitive type.
fn primitive_type_name(prim: Prim) -> &'static str
    ensures { result.now ≡ primitive_name prim }
{
    match prim {
        Prim::Bool => "Edm.Boolean",
        Prim::Byte => "Edm.Byte",
        Prim::SByte => "Edm.SByte",
        Prim::Int16 => "Edm.Int16",
        Prim::Int32 => "Edm.Int32",
        Prim::Int64 => "Edm.Int64",
        Prim::String => "Edm.String",
        Prim::Date => "Edm.Date",
        Prim::DateTimeOffset => "Edm.DateTimeOffset",
        Prim::Guid => "Edm.Guid",
    }
}
