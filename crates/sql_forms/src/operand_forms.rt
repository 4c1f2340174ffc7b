//! What an operator takes: a node, or a value that has been bound.
ghost use Rattle.std.specs.Prelude.{◌≡◌, OnOk};
ghost use Rattle.sql_tree.specs.declared.sql_node.SqlType.{SqlType};
ghost use Rattle.sql_draft.specs.declared.sql_context.Kind.{Kind};
ghost use Rattle.sql_outcomes.specs.private.ValueForms.{Itself, OrTruth};
ghost use Rattle.sql_draft.specs.OperandHas.{OperandHas};
ghost use Rattle.sql_outcomes.specs.private.OperandValues.{ComparedHas, IsPut, IsTested, NullHas};
ghost use Rattle.sql_draft.specs.Translated.{IsTranslated, question_of};
ghost use Rattle.sql_draft.specs.World.{Puts};

use super::value_forms::{put_enumeration_number, put_value};
use edm_values::Value;
use odata_checked_filter::NodeKind;
use odata_signatures::literals_have_one_value;
use sql_draft::{Draft, Kind, Operand, Source, SqlContext, put_path};
use sql_tree::{Digit, Parameter, SqlFunction, SqlNode, SqlType};
use std::alloc::AllocError;

/// Puts an operand's value; of the type Null the null of that type.
#[cycle(put)]
pub(crate) fn put_operand(
    context: &SqlContext<'_, '_>,
    draft: &mut Draft,
    operand: &Operand,
    wanted: SqlType,
) -> Result<(), AllocError>
    requires translated { IsTranslated context.now }
    requires put { IsPut context.now.checked.now context.now.ranges.now operand.now }
    ensures { OnOk result (Puts (question_of context.now) draft.old draft.new
        (OperandHas context.now.checked.now operand.now) Itself) }
{
    match operand.source {
        Source::Node { place } => put_value(context, draft, place, wanted),
        Source::Bound { level } => draft.put(SqlNode::Bound { level }),
        Source::Unfaulted { level, carrier } => {
            draft.put(SqlNode::Unfault { carrier })?;
            draft.put(SqlNode::Bound { level })
        }
        Source::Field { path, value_type } => draft.put(SqlNode::Field { path, value_type }),
        // SQL has no value that is an entity or a complex value.
        Source::Place { .. } => draft.put(SqlNode::Null { value_type: wanted }),
        Source::Number { value } => put_enumeration_number(context, draft, value),
        Source::Zero => draft.put_number(Digit::Zero),
    }
}

/// Puts an operand as it is compared: a moment by its instant.
#[cycle(put)]
pub(crate) fn put_compared(
    context: &SqlContext<'_, '_>,
    draft: &mut Draft,
    operand: &Operand,
) -> Result<(), AllocError>
    requires translated { IsTranslated context.now }
    requires put { IsPut context.now.checked.now context.now.ranges.now operand.now }
    requires value { (type : SqlType) × (operand.now.kind ≡ Kind.Value type) }
    ensures { OnOk result (Puts (question_of context.now) draft.old draft.new
        (ComparedHas context.now.checked.now operand.now) Itself) }
{
    let value_type = operand.wanted();
    if value_type == SqlType::Moment {
        put_instant(context, draft, operand)
    } else {
        put_operand(context, draft, operand, value_type)
    }
}

/// Puts the instant of a moment, of a literal and of `now()` as a parameter.
#[cycle(put)]
fn put_instant(
    context: &SqlContext<'_, '_>,
    draft: &mut Draft,
    operand: &Operand,
) -> Result<(), AllocError>
    requires translated { IsTranslated context.now }
    requires put { IsPut context.now.checked.now context.now.ranges.now operand.now }
    requires moment { operand.now.kind ≡ Kind.Value SqlType.Moment }
    ensures { OnOk result (Puts (question_of context.now) draft.old draft.new
        (ComparedHas context.now.checked.now operand.now) Itself) }
{
    literals_have_one_value();
    if let Source::Node { place } = operand.source {
        match context.node(place).kind {
            NodeKind::Now => {
                return draft.put_parameter(Parameter::of_moment(context.moment), SqlType::Instant);
            }
            NodeKind::Literal { value, .. } => {
                if let Value::Moment(moment) = &context.checked.values()[value] {
                    return draft.put_parameter(Parameter::of_moment(moment), SqlType::Instant);
                }
            }
            _ => {}
        }
    }
    draft.put(SqlNode::Function {
        function: SqlFunction::Instant,
    })?;
    put_operand(context, draft, operand, SqlType::Moment)
}

/// Puts whether an operand is null.
#[cycle(put)]
pub(crate) fn put_is_null(
    context: &SqlContext<'_, '_>,
    draft: &mut Draft,
    operand: &Operand,
) -> Result<(), AllocError>
    requires translated { IsTranslated context.now }
    requires tested { IsTested context.now.checked.now context.now.ranges.now operand.now }
    ensures { OnOk result (Puts (question_of context.now) draft.old draft.new
        (NullHas context.now.checked.now operand.now) (OrTruth Itself)) }
{
    if !operand.range.may_be_null {
        return draft.put(SqlNode::Truth { value: false });
    }
    if let Source::Place { path } = operand.source {
        return draft.put(SqlNode::IsMissing { path });
    }
    match operand.kind {
        Kind::Null => draft.put(SqlNode::Truth { value: true }),
        Kind::Value(value_type) => {
            draft.put(SqlNode::IsNull)?;
            put_operand(context, draft, operand, value_type)
        }
        Kind::Structured => match operand.source {
            Source::Node { place } => {
                let path = put_path(context, draft, place)?;
                draft.put(SqlNode::IsMissing { path })
            }
            // What has neither a value nor a position is null.
            _ => draft.put(SqlNode::Truth { value: true }),
        },
    }
}
