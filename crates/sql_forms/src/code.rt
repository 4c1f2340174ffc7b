//! Nodes of truth values by their codes: 0 for false, 1 for true, 2 for null, 3 for Overflow and 4 for DivideByZero.
ghost use Rattle.std.specs.Prelude.{OnOk};
ghost use Rattle.sql_meaning.specs.Tables.{IsTableBesideNull, IsTableOfComparison};
ghost use Rattle.sql_forms.specs.declared.terms.Form.{Form};
ghost use Rattle.sql_forms.specs.private.Joins.{IsJoin};
ghost use Rattle.sql_outcomes.specs.ComparedSides.{CodeHas};
ghost use Rattle.sql_outcomes.specs.private.FaultySides.{IsCoded, IsFaulty};
ghost use Rattle.sql_forms.specs.Forms.{IsInForm};
ghost use Rattle.sql_draft.specs.Kinds.{AreCompared};
ghost use Rattle.sql_forms.specs.private.Lists.{AsCode, FaultyOrNull};
ghost use Rattle.sql_draft.specs.Translated.{IsTranslated, IsTruthAt, question_of};
ghost use Rattle.sql_draft.specs.World.{OfPlace, Puts};

use super::call_forms::put_call_code;
use super::comparison_forms::put_comparison;
use super::in_path::put_in_path_code;
use super::lambda::put_lambda_code;
use super::lift::bind_operands;
use super::list_forms::put_list_code;
use super::operand_forms::put_operand;
use super::terms::{Form, connective_at, put_joined, terms_of};
use super::truth::{compared_at, put_truth};
use odata_checked_filter::NodeKind;
use odata_meaning::typed_trees_end_once_on_entities;
use odata_signatures::trees_have_one_type;
use odata_syntax::{ComparisonOperator, LogicalOperator};
use sql_draft::{Draft, Operand, Source, SqlContext};
use sql_meaning::{tables_are_comparisons, tables_are_connectives, tables_beside_null};
use sql_tree::{LookUp, SqlNode, SqlType};
use std::alloc::AllocError;

/// The table of a comparison of truth values.
pub(crate) fn comparison_table(operator: ComparisonOperator) -> LookUp
    ensures { IsTableOfComparison result operator }
{
    tables_are_comparisons();
    match operator {
        ComparisonOperator::Eq => LookUp::Equal,
        ComparisonOperator::Ne => LookUp::NotEqual,
        ComparisonOperator::Gt => LookUp::Greater,
        ComparisonOperator::Ge => LookUp::AtLeast,
        ComparisonOperator::Lt => LookUp::Less,
        ComparisonOperator::Le => LookUp::AtMost,
    }
}

/// The table of a comparison with null.
fn null_table(operator: ComparisonOperator) -> LookUp
    ensures { IsTableBesideNull result operator }
{
    tables_beside_null();
    match operator {
        ComparisonOperator::Ne => LookUp::IsNotNull,
        ComparisonOperator::Gt | ComparisonOperator::Lt => LookUp::Never,
        ComparisonOperator::Eq | ComparisonOperator::Ge | ComparisonOperator::Le => LookUp::IsNull,
    }
}

/// The node that joins codes.
pub(crate) fn code_join(connective: LogicalOperator) -> SqlNode
    ensures { IsJoin Form.Code result connective }
{
    match connective {
        LogicalOperator::And => SqlNode::LookUp { table: LookUp::And },
        LogicalOperator::Or => SqlNode::LookUp { table: LookUp::Or },
    }
}

/// Puts the code of a node of type Boolean or Null.
#[cycle(put)]
pub fn put_code(
    context: &SqlContext<'_, '_>,
    draft: &mut Draft,
    place: usize,
) -> Result<(), AllocError>
    requires translated { IsTranslated context.now }
    requires truth { IsTruthAt context.now.checked.now place }
    ensures { OnOk result (Puts (question_of context.now) draft.old draft.new
        (OfPlace context.now.checked.now place) (IsInForm Form.Code)) }
{
    typed_trees_end_once_on_entities();
    trees_have_one_type();
    tables_are_connectives();
    if !context.may_fault(place) {
        draft.put(SqlNode::TruthCode)?;
        return put_truth(context, draft, place);
    }
    if let Some((operator, left, right)) = compared_at(context, place) {
        return put_compared_code(context, draft, operator, &left, &right);
    }
    if let Some(connective) = connective_at(context, place) {
        let terms = terms_of(draft.alloc, context, connective, place)?;
        let join = code_join(connective);
        return put_joined(context, draft, Form::Code, &join, terms.as_slice());
    }
    match context.node(place).kind {
        NodeKind::Not => {
            draft.put(SqlNode::LookUp { table: LookUp::Not })?;
            put_code(context, draft, place + 1)
        }
        NodeKind::InList => put_list_code(context, draft, place),
        NodeKind::InPath => put_in_path_code(context, draft, place),
        NodeKind::Lambda { quantifier } => put_lambda_code(context, draft, place, quantifier),
        NodeKind::Call { function } => put_call_code(context, draft, place, function),
        // Any other node evaluates to no fault.
        _ => {
            draft.put(SqlNode::TruthCode)?;
            put_truth(context, draft, place)
        }
    }
}

/// Puts the code of an operand that is a truth value.
#[cycle(put)]
#[inline(never)]
fn put_operand_code(
    context: &SqlContext<'_, '_>,
    draft: &mut Draft,
    operand: &Operand,
) -> Result<(), AllocError>
    requires translated { IsTranslated context.now }
    requires coded { IsCoded context.now.checked.now operand.now.source }
    ensures { OnOk result (Puts (question_of context.now) draft.old draft.new
        (CodeHas context.now.checked.now operand.now.source) (IsInForm Form.Code)) }
{
    match operand.source {
        Source::Node { place } => put_code(context, draft, place),
        Source::Bound { level } => draft.put(SqlNode::Bound { level }),
        // Any other operand is no fault.
        _ => {
            draft.put(SqlNode::TruthCode)?;
            put_operand(context, draft, operand, SqlType::Truth)
        }
    }
}

/// Puts the code of a comparison a side of which may be a fault.
#[cycle(put)]
#[inline(never)]
pub(crate) fn put_compared_code(
    context: &SqlContext<'_, '_>,
    draft: &mut Draft,
    operator: ComparisonOperator,
    left: &Operand,
    right: &Operand,
) -> Result<(), AllocError>
    requires translated { IsTranslated context.now }
    requires left { IsFaulty context.now.checked.now context.now.ranges.now left.now }
    requires right { IsFaulty context.now.checked.now context.now.ranges.now right.now }
    requires compared { AreCompared left.now.kind right.now.kind }
    ensures { OnOk result (Puts (question_of context.now) draft.old draft.new
        (FaultyOrNull context.now.checked.now operator left.now right.now) AsCode) }
{
    if left.is_truth() {
        if right.is_truth() {
            draft.put(SqlNode::LookUp {
                table: comparison_table(operator),
            })?;
            put_operand_code(context, draft, left)?;
            return put_operand_code(context, draft, right);
        }
        draft.put(SqlNode::LookUp {
            table: null_table(operator),
        })?;
        return put_operand_code(context, draft, left);
    }
    if right.is_truth() {
        draft.put(SqlNode::LookUp {
            table: null_table(operator),
        })?;
        return put_operand_code(context, draft, right);
    }
    let lifted = bind_operands(context, draft, &[*left, *right], false)?;
    lifted.open(draft)?;
    lifted.put_faults(draft, None)?;
    draft.put(SqlNode::TruthCode)?;
    put_comparison(context, draft, operator, &lifted.first(), &lifted.second())?;
    lifted.close(context, draft)
}
