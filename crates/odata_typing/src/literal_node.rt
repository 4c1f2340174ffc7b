//! Literals, read once, for all rows.
ghost use Rattle.std.specs.Prelude.{◌≡◌, ◌≢◌, ◌+◌};
ghost use Rattle.odata_syntax.specs.TextTree.{IsTextRange};
ghost use Rattle.odata_syntax.specs.Tree.{literal};
ghost use Rattle.odata_signatures.specs.FirstUntypable.{LiteralReason};
ghost use Rattle.odata_signatures.specs.TypeThere.{IsTypeThere};
ghost use Rattle.odata_typing.specs.private.Answer.{IsReading};
ghost use Rattle.odata_typing.specs.private.Judging.{IsNodeJudged};
ghost use Rattle.odata_typing.specs.private.CheckContexts.{IsNodeReady, name_of};

use super::check_context::{CheckContext, Judged};
use super::judged_list::Walk;
use super::laws_below::laws_below;
use super::reading::{Reading, primitive, read_plain};
use edm_values::{LitFault, Prim, Value, read_int, read_string};
use odata_checked_filter::NodeKind;
use odata_signatures::TypeFaultCode;
use odata_syntax::LiteralKind;

/// Puts the literal's node at its index, with its value.
#[inline(always)]
pub(crate) fn checked_literal(
    context: &CheckContext<'_>,
    judged: &Judged<'_>,
    kind: LiteralKind,
    walk: &mut Walk,
) -> bool
    requires ready { IsNodeReady context.now walk.old judged.now }
    requires text { IsTextRange context.now.text.now judged.now.node.now.text }
    requires leaf { judged.now.stop ≡ judged.now.number + 1 }
    ensures { IsNodeJudged context.now judged.now (literal kind (name_of context.now judged.now))
        walk.old walk.new result }
{
    match kind {
        LiteralKind::Str => checked_text(context, judged, walk),
        LiteralKind::Int => checked_number(context, judged, walk),
        _ => checked_plain(context, judged, kind, walk),
    }
}

/// The same of a String literal.
#[inline(never)]
fn checked_text(context: &CheckContext<'_>, judged: &Judged<'_>, walk: &mut Walk) -> bool
    requires ready { IsNodeReady context.now walk.old judged.now }
    requires text { IsTextRange context.now.text.now judged.now.node.now.text }
    requires leaf { judged.now.stop ≡ judged.now.number + 1 }
    ensures { IsNodeJudged context.now judged.now (literal LiteralKind.Str (name_of context.now judged.now))
        walk.old walk.new result }
{
    laws_below();
    match read_string(context.alloc, context.text_in(judged.node.text)) {
        Ok(text) => {
            let reading = primitive(Prim::String, Value::Text(text));
            put_literal(context, judged, LiteralKind::Str, reading, walk)
        }
        Err(LitFault::Form) => walk.refuse(judged.node.span, TypeFaultCode::LiteralRange),
        Err(LitFault::Memory) => false,
    }
}

/// The same of a whole number.
#[inline(never)]
fn checked_number(context: &CheckContext<'_>, judged: &Judged<'_>, walk: &mut Walk) -> bool
    requires ready { IsNodeReady context.now walk.old judged.now }
    requires text { IsTextRange context.now.text.now judged.now.node.now.text }
    requires leaf { judged.now.stop ≡ judged.now.number + 1 }
    ensures { IsNodeJudged context.now judged.now (literal LiteralKind.Int (name_of context.now judged.now))
        walk.old walk.new result }
{
    laws_below();
    match read_int(context.text_in(judged.node.text)) {
        Some(n) => {
            let reading = primitive(Prim::of_int_literal(n), Value::Int(n));
            put_literal(context, judged, LiteralKind::Int, reading, walk)
        }
        None => walk.refuse(judged.node.span, TypeFaultCode::LiteralRange),
    }
}

/// The same of every other literal.
#[inline(never)]
fn checked_plain(
    context: &CheckContext<'_>,
    judged: &Judged<'_>,
    kind: LiteralKind,
    walk: &mut Walk,
) -> bool
    requires ready { IsNodeReady context.now walk.old judged.now }
    requires text { IsTextRange context.now.text.now judged.now.node.now.text }
    requires leaf { judged.now.stop ≡ judged.now.number + 1 }
    requires text_apart { kind ≢ LiteralKind.Str }
    requires number_apart { kind ≢ LiteralKind.Int }
    ensures { IsNodeJudged context.now judged.now (literal kind (name_of context.now judged.now))
        walk.old walk.new result }
{
    laws_below();
    match read_plain(context.schema, kind, context.text_in(judged.node.text)) {
        Some(reading) => put_literal(context, judged, kind, reading, walk),
        None => walk.refuse(judged.node.span, literal_reason(kind)),
    }
}

/// The node of a literal that has been read, and its value.
#[inline(always)]
fn put_literal(
    context: &CheckContext<'_>,
    judged: &Judged<'_>,
    kind: LiteralKind,
    reading: Reading,
    walk: &mut Walk,
) -> bool
    requires ready { IsNodeReady context.now walk.old judged.now }
    requires text { IsTextRange context.now.text.now judged.now.node.now.text }
    requires leaf { judged.now.stop ≡ judged.now.number + 1 }
    requires right { IsReading context.now.schema.now kind (name_of context.now judged.now)
        reading.value reading.edm_type }
    requires there { IsTypeThere context.now.schema.now reading.edm_type }
    ensures { IsNodeJudged context.now judged.now (literal kind (name_of context.now judged.now))
        walk.old walk.new result }
{
    laws_below();
    let value = walk.list.values().len();
    let edm_type = reading.edm_type;
    if !walk.push_value(reading.value) {
        return false;
    }
    walk.put(judged, NodeKind::Literal { kind, value }, &edm_type)
}

/// Why a literal of this kind has no type: it has no value.
fn literal_reason(kind: LiteralKind) -> TypeFaultCode
    ensures { LiteralReason kind result }
{
    match kind {
        LiteralKind::EnumLit => TypeFaultCode::UnknownEnum,
        _ => TypeFaultCode::LiteralRange,
    }
}
