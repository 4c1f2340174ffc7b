//! Any node as an expression of SQL.
ghost use Rattle.std.specs.Prelude.{◌≡◌, ◌<◌, OnOk, length, string_bytes};
ghost use Rattle.edm_values.specs.MomentLiteral.{MomentValue};
ghost use Rattle.edm_values.specs.declared.primitive.PrimitiveType.{PrimitiveType};
ghost use Rattle.odata_checked_filter.specs.declared.checked_node.NodeKind.{NodeKind};
ghost use Rattle.odata_syntax.specs.declared.binary_operator.BinaryOperator.{BinaryOperator};
ghost use Rattle.sql_tree.specs.declared.sql_node.SqlType.{SqlType};
ghost use Rattle.sql_outcomes.specs.Calculations.{IsComputedIn};
ghost use Rattle.sql_outcomes.specs.private.ValueForms.{Itself};
ghost use Rattle.sql_outcomes.specs.private.Growth.{GrowsByText};
ghost use Rattle.sql_draft.specs.OperandHas.{HasNumber, SourceHas};
ghost use Rattle.sql_draft.specs.private.Spelled.{IsLiteralAt};
ghost use Rattle.sql_draft.specs.Translated.{IsKindAt, IsNulFreeAt, IsTranslated, question_of};
ghost use Rattle.sql_outcomes.specs.private.NodesThere.{IsPlainAt, IsValuedAt};
ghost use Rattle.sql_draft.specs.private.Spelled.{IsSpelled};
ghost use Rattle.sql_draft.specs.World.{OfPlace, Puts};
ghost use Rattle.sql_draft.specs.declared.sql_operand.Source.{Source};

use super::arithmetic_forms::put_calculated;
use super::call_forms::{is_kind, put_call};
use super::path_value::put_path_value;
use super::truth::put_truth;
use edm_values::{
    Moment, Value, dates_read_back, guids_read_back, moments_read_back, write_date, write_guid,
    write_moment,
};
use odata_checked_filter::NodeKind;
use odata_meaning::typed_trees_end_once_on_entities;
use odata_signatures::{literals_have_one_value, trees_have_one_type};
use odata_syntax::{ArithmeticOperator, BinaryOperator};
use sql_draft::{Draft, Kind, Operand, SqlContext, put_path};
use sql_tree::{Parameter, SqlNode, SqlType};
use std::alloc::AllocError;

/// Puts the value of the node at an index: a number or a text that may be a fault as its carrier has it, a truth value
/// as one of SQL. Of a node of type Null it is the null of the wanted type.
#[cycle(put)]
#[inline(never)]
pub(crate) fn put_value(
    context: &SqlContext<'_, '_>,
    draft: &mut Draft,
    place: usize,
    wanted: SqlType,
) -> Result<(), AllocError>
    requires translated { IsTranslated context.now }
    requires there { place < length context.now.checked.now.list.nodes }
    requires valued { IsValuedAt context.now.checked.now place }
    requires plain { IsPlainAt context.now.checked.now context.now.ranges.now place }
    ensures { OnOk result (Puts (question_of context.now) draft.old draft.new
        (OfPlace context.now.checked.now place) Itself) }
{
    typed_trees_end_once_on_entities();
    trees_have_one_type();
    literals_have_one_value();
    let Some(value_type) = context.value_type(place) else {
        return draft.put(SqlNode::Null { value_type: wanted });
    };
    if is_kind(context.kind(place), Kind::Value(SqlType::Truth)) {
        return put_truth(context, draft, place);
    }
    match context.node(place).kind {
        NodeKind::Literal { value, .. } => put_literal(context, draft, value),
        NodeKind::Now => put_moment(draft, context.moment),
        NodeKind::Count => {
            let path = put_path(context, draft, place + 1)?;
            draft.put(SqlNode::Count { path })
        }
        NodeKind::Neg => {
            let operand = Operand::at(context, place + 1);
            put_calculated(
                context,
                draft,
                place,
                ArithmeticOperator::Sub,
                &Operand::zero(),
                &operand,
            )
        }
        NodeKind::Binary { operator } => match operator {
            BinaryOperator::Arithmetic(arithmetic) => {
                put_arithmetic(context, draft, place, arithmetic)
            }
            // Comparisons and connectives give truth values.
            _ => put_truth(context, draft, place),
        },
        NodeKind::Call { function } => put_call(context, draft, place, function),
        _ => put_path_value(context, draft, place, value_type),
    }
}

/// The same, of an operator of arithmetic.
#[cycle(put)]
#[inline(never)]
fn put_arithmetic(
    context: &SqlContext<'_, '_>,
    draft: &mut Draft,
    place: usize,
    operator: ArithmeticOperator,
) -> Result<(), AllocError>
    requires translated { IsTranslated context.now }
    requires kind { IsKindAt context.now.checked.now place (NodeKind.Binary (BinaryOperator.Arithmetic operator)) }
    requires number { (type : PrimitiveType) × IsComputedIn context.now.checked.now place type }
    ensures { OnOk result (Puts (question_of context.now) draft.old draft.new
        (OfPlace context.now.checked.now place) Itself) }
{
    typed_trees_end_once_on_entities();
    trees_have_one_type();
    let left = Operand::at(context, place + 1);
    let right = Operand::at(context, context.second(place));
    put_calculated(context, draft, place, operator, &left, &right)
}

/// Puts a literal by the index of its value: true, false and null as words, every other one as a parameter.
pub(crate) fn put_literal(
    context: &SqlContext<'_, '_>,
    draft: &mut Draft,
    value: usize,
) -> Result<(), AllocError>
    requires there { value < length context.now.checked.now.list.values }
    requires spelled { IsSpelled context.now.checked.now value }
    requires nul_free { IsNulFreeAt context.now.checked.now value }
    ensures { OnOk result (Puts (question_of context.now) draft.old draft.new
        (IsLiteralAt context.now.checked.now value) Itself) }
{
    dates_read_back();
    guids_read_back();
    match &context.checked.values()[value] {
        Value::Bool(value) => draft.put(SqlNode::Truth { value: *value }),
        Value::Int(number) => draft.put_parameter(Parameter::Whole(*number), SqlType::Whole),
        Value::Text(text) => {
            let text = text.clone()?;
            draft.put_parameter(Parameter::Text(text), SqlType::Text)
        }
        Value::Date(date) => {
            let mut text = String::new(draft.alloc);
            write_date(&mut text, *date)?;
            draft.put_parameter(Parameter::Text(text), SqlType::Date)
        }
        Value::Moment(moment) => put_moment(draft, moment),
        Value::Guid(guid) => {
            let mut text = String::new(draft.alloc);
            write_guid(&mut text, *guid)?;
            draft.put_parameter(Parameter::Text(text), SqlType::Guid)
        }
        Value::Enum(number) => draft.put_parameter(Parameter::Whole(*number), SqlType::Member),
        _ => draft.put(SqlNode::Null {
            value_type: SqlType::Text,
        }),
    }
}

fn put_moment(draft: &mut Draft, moment: &Moment) -> Result<(), AllocError>
    ensures { OnOk result (GrowsByText draft.old draft.new SqlType.Moment
        (λ text. MomentValue (string_bytes text) moment.now)) }
{
    moments_read_back();
    let (_civil, _offset) = (moment.civil(), moment.offset_minutes());
    let mut text = String::new(draft.alloc);
    write_moment(&mut text, moment)?;
    draft.put_parameter(Parameter::Text(text), SqlType::Moment)
}

/// Puts the number of an enumeration, by its index among the filter's values.
pub(crate) fn put_enumeration_number(
    context: &SqlContext<'_, '_>,
    draft: &mut Draft,
    value: usize,
) -> Result<(), AllocError>
    requires { HasNumber context.now.checked.now value }
    ensures { OnOk result (Puts (question_of context.now) draft.old draft.new
        (SourceHas context.now.checked.now (Source.Number value)) Itself) }
{
    put_literal(context, draft, value)
}
