//! Calls of functions.
ghost use Rattle.std.specs.Prelude.{◌≡◌, ◌<◌, ◌↔◌, All, IfNone, IfOk, IfSome, IsTrue, OnOk, Some, length};
ghost use Rattle.odata_signatures.specs.CallTyped.{TakesCount};
ghost use Rattle.odata_signatures.specs.declared.function.Function.{Function};
ghost use Rattle.sql_tree.specs.Shapes.{arity_of_function};
ghost use Rattle.sql_tree.specs.declared.sql_node.SqlFunction.{SqlFunction};
ghost use Rattle.sql_tree.specs.declared.sql_node.SqlType.{SqlType};
ghost use Rattle.odata_checked_filter.specs.declared.checked_node.NodeKind.{NodeKind};
ghost use Rattle.sql_forms.specs.declared.terms.Form.{Form};
ghost use Rattle.sql_outcomes.specs.Calls.{AreArgumentsOf};
ghost use Rattle.sql_forms.specs.private.Called.{CalledHas, FunctionHas, carried_nodes};
ghost use Rattle.sql_outcomes.specs.private.Functions.{IsCarriedFunction, IsCounting, IsTimeFunction};
ghost use Rattle.sql_outcomes.specs.Calls.{IsSqlFunctionOf};
ghost use Rattle.sql_forms.specs.Forms.{IsInForm};
ghost use Rattle.sql_outcomes.specs.private.ValueForms.{Itself};
ghost use Rattle.sql_draft.specs.declared.sql_context.Kind.{Kind};
ghost use Rattle.sql_draft.specs.Growth.{Grows};
ghost use Rattle.sql_forms.specs.private.Lifts.{carried_front};
ghost use Rattle.sql_outcomes.specs.private.OperandValues.{IsPut};
ghost use Rattle.sql_draft.specs.Translated.{IsKindAt, IsTranslated, IsTruthAt, question_of};
ghost use Rattle.sql_outcomes.specs.private.NodesThere.{IsPlainAt};
ghost use Rattle.sql_draft.specs.World.{OfPlace, Puts};

use super::lift::{Lifted, bind_operands};
use super::operand_forms::put_operand;
use edm_values::Prim;
use odata_functions::ArithFault;
use odata_meaning::typed_trees_end_once_on_entities;
use odata_ranges::may_exceed_int32;
use odata_signatures::{Function, calls_have_one_type, trees_have_one_type};
use sql_draft::{Draft, Kind, Operand, Source, SqlContext};
use sql_tree::{Carrier, SqlFunction, SqlNode, SqlType};
use std::alloc::{AllocError, Global};

/// The arguments of the call at an index.
fn arguments_of(
    alloc: Global,
    context: &SqlContext<'_, '_>,
    place: usize,
) -> Result<Vec<Operand>, AllocError>
    requires translated { IsTranslated context.now }
    requires call { (function : Function) × IsKindAt context.now.checked.now place (NodeKind.Call function) }
    ensures { IfOk result (λ operands. AreArgumentsOf context.now.checked.now context.now.ranges.now place operands.items) }
{
    let mut operands = Vec::new(alloc);
    let stop = context.node(place).stop;
    let mut at = place + 1;
    while at < stop {
        operands.push(Operand {
            source: Source::Node { place: at },
            kind: context.kind(at),
            range: context.range(at),
        })?;
        at = context.node(at).stop;
    }
    Ok(operands)
}

/// What a function's argument is, by its index.
fn wanted_type(function: Function, argument: usize) -> SqlType {
    match function {
        Function::Substring => {
            if argument == 0 {
                SqlType::Text
            } else {
                SqlType::Whole
            }
        }
        Function::Year
        | Function::Month
        | Function::Day
        | Function::Hour
        | Function::Minute
        | Function::Second
        | Function::TotalOffsetMinutes
        | Function::Date => SqlType::Moment,
        _ => SqlType::Text,
    }
}

/// What carries the faults of a function's result; none of a truth value, nor of a part of a date or of a moment.
fn carrier_of(function: Function) -> Option<Carrier>
    ensures some { IfSome result (λ carrier. IsCarriedFunction function) }
    ensures none { IfNone result (¬ IsCarriedFunction function) }
{
    match function {
        Function::Concat
        | Function::Substring
        | Function::Trim
        | Function::ToLower
        | Function::ToUpper => Some(Carrier::Text),
        Function::Length | Function::IndexOf => Some(Carrier::Number),
        _ => None,
    }
}

/// Whether a function makes a count of characters.
fn is_counting(function: Function) -> bool
    ensures { IsTrue result ↔ IsCounting function }
{
    match function {
        Function::Length | Function::IndexOf => true,
        _ => false,
    }
}

/// The function of SQL, of these operands.
fn function_of(function: Function, operands: &[Operand]) -> SqlFunction
    requires some { 0 < length operands.now }
    requires counted { TakesCount function (length operands.now) }
    ensures is { IsSqlFunctionOf function operands.now result }
    ensures many { length operands.now ≡ arity_of_function result }
{
    match function {
        Function::Contains => SqlFunction::Contains,
        Function::StartsWith => SqlFunction::StartsWith,
        Function::EndsWith => SqlFunction::EndsWith,
        Function::Concat => SqlFunction::Concat,
        Function::Length => SqlFunction::Length,
        Function::IndexOf => SqlFunction::IndexOf,
        Function::Substring => {
            if operands.len() == 2 {
                SqlFunction::RestFrom
            } else {
                SqlFunction::PartFrom
            }
        }
        Function::Trim => SqlFunction::Trim,
        Function::ToLower => SqlFunction::ToLower,
        Function::ToUpper => SqlFunction::ToUpper,
        _ => time_function(function, operands),
    }
}

/// The same, of a part of a date or of a moment.
fn time_function(function: Function, operands: &[Operand]) -> SqlFunction
    requires some { 0 < length operands.now }
    requires time { IsTimeFunction function }
    ensures is { IsSqlFunctionOf function operands.now result }
    ensures one { arity_of_function result ≡ 1 }
{
    let of_date = is_kind(operands[0].kind, Kind::Value(SqlType::Date));
    match function {
        Function::Year => {
            if of_date {
                SqlFunction::YearOfDate
            } else {
                SqlFunction::YearOfMoment
            }
        }
        Function::Month => {
            if of_date {
                SqlFunction::MonthOfDate
            } else {
                SqlFunction::MonthOfMoment
            }
        }
        Function::Day => {
            if of_date {
                SqlFunction::DayOfDate
            } else {
                SqlFunction::DayOfMoment
            }
        }
        Function::Hour => SqlFunction::Hour,
        Function::Minute => SqlFunction::Minute,
        Function::Second => SqlFunction::Second,
        Function::TotalOffsetMinutes => SqlFunction::OffsetMinutes,
        _ => SqlFunction::DateOfMoment,
    }
}

pub(crate) fn is_kind(kind: Kind, wanted: Kind) -> bool
    ensures { IsTrue result ↔ (kind ≡ wanted) }
{
    kind == wanted
}

/// Puts the function of SQL over operands that are no faults.
#[cycle(put)]
fn put_function(
    context: &SqlContext<'_, '_>,
    draft: &mut Draft,
    function: Function,
    operands: &[Operand],
) -> Result<(), AllocError>
    requires translated { IsTranslated context.now }
    requires put { All (IsPut context.now.checked.now context.now.ranges.now) operands.now }
    requires some { 0 < length operands.now }
    requires counted { TakesCount function (length operands.now) }
    ensures { OnOk result ((sql : SqlFunction) × IsSqlFunctionOf function operands.now sql × Puts
        (question_of context.now) draft.old draft.new (FunctionHas context.now.checked.now sql operands.now) Itself) }
{
    draft.put(SqlNode::Function {
        function: function_of(function, operands),
    })?;
    for place in 0..operands.len() {
        put_operand(
            context,
            draft,
            &operands[place],
            wanted_type(function, place),
        )?;
    }
    Ok(())
}

/// Puts that what follows is a value as the carrier has it, where there is one.
fn put_carried(draft: &mut Draft, carrier: Option<Carrier>) -> Result<(), AllocError>
    ensures { OnOk result (Grows draft.old draft.new (carried_nodes carrier)) }
{
    match carrier {
        Some(carrier) => draft.put(SqlNode::Carried { carrier }),
        None => Ok(()),
    }
}

/// Puts what a function makes of operands that are no faults, as the carrier has it, if there is one; of a count that
/// may lie outside Int32 its fault.
#[cycle(put)]
fn put_called(
    context: &SqlContext<'_, '_>,
    draft: &mut Draft,
    function: Function,
    carrier: Option<Carrier>,
    operands: &[Operand],
) -> Result<(), AllocError>
    requires translated { IsTranslated context.now }
    requires put { All (IsPut context.now.checked.now context.now.ranges.now) operands.now }
    requires some { 0 < length operands.now }
    requires counted { TakesCount function (length operands.now) }
    requires carried { IfSome carrier (λ c. IsCarriedFunction function) }
    ensures { OnOk result (Puts (question_of context.now) draft.old draft.new
        (CalledHas context.now.checked.now function operands.now) Itself) }
{
    if !is_counting(function) || !may_exceed_int32(operands[0].range) {
        put_carried(draft, carrier)?;
        return put_function(context, draft, function, operands);
    }
    let level = draft.depth_for_more()?;
    draft.put(SqlNode::Let { level, count: 1 })?;
    draft.put(SqlNode::Case)?;
    draft.put(SqlNode::Not)?;
    draft.put(SqlNode::Within { prim: Prim::Int32 })?;
    draft.put(SqlNode::Bound { level })?;
    draft.put(SqlNode::Fault {
        carrier: Carrier::Number,
        fault: ArithFault::Overflow,
    })?;
    draft.put(SqlNode::Carried {
        carrier: Carrier::Number,
    })?;
    draft.put(SqlNode::Bound { level })?;
    put_function(context, draft, function, operands)
}

/// Puts the faults of operands that are bound, as such a carrier has them; nothing where there is none.
fn put_carried_faults(
    lifted: &Lifted,
    draft: &mut Draft,
    carrier: Option<Carrier>,
) -> Result<(), AllocError>
    requires { lifted.now.level < 1_000_000_000_000 }
    ensures { OnOk result (Grows draft.old draft.new (carried_front carrier lifted.now.level lifted.now.bound.items)) }
{
    match carrier {
        Some(carrier) => lifted.put_faults(draft, Some(carrier)),
        None => Ok(()),
    }
}

/// Puts the value of the call at an index.
#[cycle(put)]
#[inline(never)]
pub(crate) fn put_call(
    context: &SqlContext<'_, '_>,
    draft: &mut Draft,
    place: usize,
    function: Function,
) -> Result<(), AllocError>
    requires translated { IsTranslated context.now }
    requires kind { IsKindAt context.now.checked.now place (NodeKind.Call function) }
    requires plain { IsPlainAt context.now.checked.now context.now.ranges.now place }
    ensures { OnOk result (Puts (question_of context.now) draft.old draft.new
        (OfPlace context.now.checked.now place) Itself) }
{
    typed_trees_end_once_on_entities();
    trees_have_one_type();
    calls_have_one_type();
    let operands = arguments_of(draft.alloc, context, place)?;
    let lifted = bind_operands(context, draft, operands.as_slice(), false)?;
    let carrier = carrier_of(function);
    lifted.open(draft)?;
    put_carried_faults(&lifted, draft, carrier)?;
    let own = own_carrier(context, place, carrier);
    put_called(context, draft, function, own, lifted.inner.as_slice())?;
    lifted.close(context, draft)
}

/// The carrier, if the node at an index may be a fault.
fn own_carrier(
    context: &SqlContext<'_, '_>,
    place: usize,
    carrier: Option<Carrier>,
) -> Option<Carrier>
    requires { place < length context.now.ranges.now }
    ensures { IfSome result (λ own. carrier ≡ Some own) }
{
    if context.may_fault(place) {
        carrier
    } else {
        None
    }
}

/// Puts the code of the call at an index that gives a truth value and may evaluate to a fault.
#[cycle(put)]
#[inline(never)]
pub(crate) fn put_call_code(
    context: &SqlContext<'_, '_>,
    draft: &mut Draft,
    place: usize,
    function: Function,
) -> Result<(), AllocError>
    requires translated { IsTranslated context.now }
    requires kind { IsKindAt context.now.checked.now place (NodeKind.Call function) }
    requires truth { IsTruthAt context.now.checked.now place }
    ensures { OnOk result (Puts (question_of context.now) draft.old draft.new
        (OfPlace context.now.checked.now place) (IsInForm Form.Code)) }
{
    typed_trees_end_once_on_entities();
    trees_have_one_type();
    calls_have_one_type();
    let operands = arguments_of(draft.alloc, context, place)?;
    let lifted = bind_operands(context, draft, operands.as_slice(), false)?;
    lifted.open(draft)?;
    lifted.put_faults(draft, None)?;
    draft.put(SqlNode::TruthCode)?;
    put_called(context, draft, function, None, lifted.inner.as_slice())?;
    lifted.close(context, draft)
}
