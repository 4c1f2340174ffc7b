ghost use Rattle.std.specs.Prelude.{◌≡◌, ◌<◌, ◌↔◌, ℕ, List, Option, Some, None, option_map, string_bytes};
ghost use Rattle.std.specs.Prelude.{IfOk, IfErr, IfSome, IsTrue, OnOk, OnErr};
ghost use Rattle.std.specs.Io.KnownBytes.{Appends, Keeps};
ghost use Rattle.line_filter.specs.Growth.{Writes, WritesFront};
ghost use Rattle.odata_checked_filter.specs.Explanation.{IsExplanation};
ghost use Rattle.odata_filter.specs.Planned.{IsMomentText, IsPlanned};
ghost use Rattle.odata_filter.specs.Run.{Answers, AsksFor, Begins, IsAccepted, IsPlanFilter, IsRefusedLine, NamesType};
ghost use Rattle.odata_filter.specs.Run.{status_number, streams, without_plan, without_type};
ghost use Rattle.odata_filter.specs.private.RunFailures.{AnswerSays, BeginsText, GivesMoment, IsAnswerOf, IsAnswered};
ghost use Rattle.odata_filter.specs.private.RunFailures.{IsReported, IsUnwritten, LacksFilter, status_of};
ghost use Rattle.csdl_schema.specs.SchemaModel.{HoldsType, IsEntityAt, index_named};

use super::failure::Failure;
use super::output_line::write_line;
use super::rows::{Asked, filter_rows};
use command_plan::command_line::{Plan, Verb};
use csdl_schema::{Schema, TypeId};
use edm_values::{Moment, read_moment};
use filter_runs::RunFault;
use line_filter::{Unlogged, write_out};
use odata_queries::filter_of_query;
use odata_typing::{Checked, Refusal, check};
use std::alloc::{AllocError, Global};
use std::io::{Read, Write};

/// The moment that the plan gives, if it gives one.
fn given_moment<'p>(plan: &Plan<'p>) -> Result<Option<Moment>, Failure<'p>>
    ensures moment { OnOk result (IfSome plan.entry.now.now (λ given. IsMomentText given.now)) }
    ensures given { IfOk result (GivesMoment plan.entry.now) }
    ensures other { OnErr result (¬ IsPlanned plan.entry.now) }
    ensures status { IfErr result (λ failure. status_of failure ≡ without_plan) }
{
    match plan.now {
        Some(text) => match read_moment(text) {
            Some(moment) => Ok(Some(moment)),
            None => Err(Failure::NotAMoment),
        },
        None => Ok(None),
    }
}

/// The same of a plan that can be carried out.
pub(super) fn planned_moment<'p>(plan: &Plan<'p>) -> Result<Option<Moment>, Failure<'p>>
    ensures planned { OnOk result (IsPlanned plan.entry.now) }
    ensures given { IfOk result (GivesMoment plan.entry.now) }
    ensures other { OnErr result (¬ IsPlanned plan.entry.now) }
    ensures status { IfErr result (λ failure. status_of failure ≡ without_plan) }
{
    match (plan.filter, plan.query) {
        (Some(_), None) | (None, Some(_)) => given_moment(plan),
        _ => Err(Failure::OneOf),
    }
}

/// The entity type that the plan names.
pub(super) fn entity_type<'p>(schema: &Schema, named: &'p str) -> Result<TypeId, Failure<'p>>
    ensures held { IfOk result (HoldsType schema.now) }
    ensures found { IfOk result (λ id. index_named schema.now named.entry.now ≡ Some id) }
    ensures entity { IfOk result (IsEntityAt schema.now) }
    ensures none { OnErr result
        ((id : ℕ) → index_named schema.now named.entry.now ≡ Some id → ¬ IsEntityAt schema.now id) }
    ensures status { IfErr result (λ failure. status_of failure ≡ without_type) }
{
    match schema.type_named(named) {
        Some(id) => {
            if schema.is_entity(id) {
                Ok(id)
            } else {
                Err(Failure::UnknownType(named))
            }
        }
        None => Err(Failure::UnknownType(named)),
    }
}

/// The filter of a text that the plan asks for.
fn checked_text<'s, 'p>(
    alloc: Global,
    schema: &'s Schema,
    id: TypeId,
    text: &str,
    plan: &Plan<'p>,
) -> Result<Checked<'s>, Failure<'p>>
    requires held { HoldsType schema.now id }
    requires asked { AsksFor plan.now text.now }
    ensures right { (document : List ℕ) → NamesType plan.entry.now document schema.entry.now id
        → IfOk result (IsPlanFilter plan.entry.now document) }
    ensures none { (document : List ℕ) → NamesType plan.entry.now document schema.entry.now id
        → IfErr result (λ failure. LacksFilter (status_of failure) plan.entry.now document) }
{
    match check(alloc, schema, id, text) {
        Ok(checked) => Ok(checked),
        Err(refusal) => Err(Failure::Refused(refusal)),
    }
}

/// The filter of the plan, or that of its query.
pub(super) fn checked_plan<'s, 'p>(
    alloc: Global,
    schema: &'s Schema,
    id: TypeId,
    plan: &Plan<'p>,
) -> Result<Checked<'s>, Failure<'p>>
    requires held { HoldsType schema.now id }
    requires planned { IsPlanned plan.now }
    ensures right { (document : List ℕ) → NamesType plan.entry.now document schema.entry.now id
        → IfOk result (IsPlanFilter plan.entry.now document) }
    ensures none { (document : List ℕ) → NamesType plan.entry.now document schema.entry.now id
        → IfErr result (λ failure. LacksFilter (status_of failure) plan.entry.now document) }
{
    match (plan.filter, plan.query) {
        (Some(text), _) => checked_text(alloc, schema, id, text, plan),
        (None, Some(query)) => match filter_of_query(alloc, query.as_bytes()) {
            Ok(Some(text)) => checked_text(alloc, schema, id, &text, plan),
            Ok(None) => Err(Failure::NoOption),
            Err(fault) => Err(Failure::Query(fault)),
        },
        (None, None) => Err(Failure::OneOf),
    }
}

/// What `check` says of a filter.
fn accepted_text(alloc: Global, checked: &Checked<'_>) -> Result<String, AllocError>
    ensures { IfOk result (λ text. IsAccepted checked.now (string_bytes text)) }
{
    let canonical = checked.canonical(alloc)?;
    let mut text = String::from_str(alloc, "accepted")?;
    text.push('\n')?;
    text.push_str(&canonical)?;
    text.push('\n')?;
    Ok(text)
}

/// Writes what is reported about a filter.
fn write_reported<'p, W: Write>(text: &str, out: &mut W) -> Result<(), Failure<'p>>
    ensures reported { OnOk result (Appends (W.contents out.old) (W.contents out.new) text.now) }
    ensures begins { WritesFront (W.contents out.old) (W.contents out.new) text.now }
    ensures unwritten { IfErr result (λ failure. IsUnwritten (status_of failure)) }
{
    match write_out::<W, Unlogged>(out, text.as_bytes()) {
        Ok(()) => {}
        Err(_) => return Err(Failure::Rows(RunFault::Write)),
    }
    match out.flush() {
        Ok(()) => Ok(()),
        Err(_) => Err(Failure::Rows(RunFault::Write)),
    }
}

/// Writes the filter.
#[inline(never)]
fn report_filter<'p, W: Write>(
    alloc: Global,
    checked: &Checked<'_>,
    out: &mut W,
) -> Result<(), Failure<'p>>
    ensures reported { OnOk result (Writes (W.contents out.old) (W.contents out.new) (IsAccepted checked.now)) }
    ensures begins { BeginsText (IsAccepted checked.now) (W.contents out.old) (W.contents out.new) }
    ensures unwritten { IfErr result (λ failure. IsUnwritten (status_of failure)) }
{
    match accepted_text(alloc, checked) {
        Ok(text) => write_reported(&text, out),
        Err(_) => Err(Failure::Refused(Refusal::Memory)),
    }
}

/// Writes each node of the filter.
#[inline(never)]
fn report_nodes<'p, W: Write>(
    alloc: Global,
    checked: &Checked<'_>,
    out: &mut W,
) -> Result<(), Failure<'p>>
    ensures reported { OnOk result (Writes (W.contents out.old) (W.contents out.new) (IsExplanation checked.now)) }
    ensures begins { BeginsText (IsExplanation checked.now) (W.contents out.old) (W.contents out.new) }
    ensures unwritten { IfErr result (λ failure. IsUnwritten (status_of failure)) }
{
    match checked.explain(alloc) {
        Ok(text) => write_reported(&text, out),
        Err(_) => Err(Failure::Refused(Refusal::Memory)),
    }
}

/// What the plan's verb makes of its filter. `check` and `explain` look at no rows. A frame of its own has what reads
/// rows: the schema was read before. The order is that of the functions in the program: what a run over rows does not
/// call is one stretch after what it calls, but for `check`, whose canonical text brings functions that it shares.
#[inline(never)]
fn by_verb<'p, R: Read + Drop, W: Write>(
    alloc: Global,
    asked: &Asked<'_, '_, 'p>,
    rows: Option<R>,
    out: &mut W,
) -> Result<(), Failure<'p>>
    requires { GivesMoment asked.now.plan.now asked.now.given }
    ensures says { (document : List ℕ) → IsPlanFilter asked.entry.now.plan.now document asked.entry.now.checked.now
        → AnswerSays result asked.entry.now.plan.now.verb asked.entry.now.plan.now document
        (streams (option_map (λ r. R.remaining r) rows) (W.contents out.old) (W.contents out.new)) }
    ensures begins { (document : List ℕ) → IsPlanFilter asked.entry.now.plan.now document asked.entry.now.checked.now
        → Begins asked.entry.now.plan.now document
        (streams (option_map (λ r. R.remaining r) rows) (W.contents out.old) (W.contents out.new)) }
{
    match asked.plan.verb {
        Verb::Check => report_filter(alloc, asked.checked, out),
        Verb::Filter => filter_rows(alloc, asked, rows, out),
        Verb::Explain => report_nodes(alloc, asked.checked, out),
    }
}

/// The whole run, up to its first failure.
fn carry_out<'p, R: Read + Drop, W: Write>(
    alloc: Global,
    plan: &Plan<'p>,
    document: &[u8],
    rows: Option<R>,
    out: &mut W,
) -> Result<(), Failure<'p>>
    ensures says { AnswerSays result plan.entry.now.verb plan.entry.now document.now
        (streams (option_map (λ r. R.remaining r) rows) (W.contents out.old) (W.contents out.new)) }
    ensures begins { Begins plan.entry.now document.now
        (streams (option_map (λ r. R.remaining r) rows) (W.contents out.old) (W.contents out.new)) }
{
    let given = planned_moment(plan)?;
    let schema = match Schema::read(alloc, document) {
        Ok(schema) => schema,
        Err(fault) => return Err(Failure::Schema(fault)),
    };
    let id = entity_type(&schema, plan.named)?;
    let checked = checked_plan(alloc, &schema, id, plan)?;
    let asked = Asked {
        checked: &checked,
        given,
        plan,
    };
    by_verb(alloc, &asked, rows, out)
}

/// The line of a refusal.
fn refused_line(alloc: Global, failure: &Failure<'_>) -> Result<String, AllocError>
    ensures { IfOk result (λ text. IsRefusedLine (string_bytes text)) }
{
    let reported = format!(in alloc; "{failure}")?;
    let mut text = String::from_str(alloc, "refused ")?;
    text.push_str(&reported)?;
    text.push('\n')?;
    Ok(text)
}

/// Writes a refusal to standard output, as an answer.
fn report_answer<'p, W: Write>(
    alloc: Global,
    failure: &Failure<'_>,
    out: &mut W,
) -> Result<(), Failure<'p>>
    ensures reported { OnOk result (Writes (W.contents out.old) (W.contents out.new) IsRefusedLine) }
    ensures begins { BeginsText IsRefusedLine (W.contents out.old) (W.contents out.new) }
    ensures unwritten { IfErr result (λ failure. IsUnwritten (status_of failure)) }
{
    match refused_line(alloc, failure) {
        Ok(text) => write_reported(&text, out),
        Err(_) => Err(Failure::Refused(Refusal::Memory)),
    }
}

/// Whether a failure is an answer: a refusal, to a verb that reads no rows.
fn is_answer(verb: Verb, failure: &Failure<'_>) -> bool
    ensures { IsTrue result ↔ IsAnswerOf verb (status_of failure.now) }
{
    match verb {
        Verb::Check | Verb::Explain => failure.status() == 1,
        Verb::Filter => false,
    }
}

/// Writes a failure to standard error, after a flush of standard output, and returns the status.
pub fn report_failure<W: Write, E: Write>(failure: &Failure<'_>, out: &mut W, err: &mut E) -> u8
    ensures status { result ≡ status_number (status_of failure.now) }
    ensures known { result < 7 }
    ensures kept { Keeps (W.contents out.old) (W.contents out.new) }
{
    let _ = out.flush();
    let status = failure.status();
    let before = if status == 1 { "refused " } else { "" };
    let _ = write_line(err, &format_args!("{before}{failure}"));
    status
}

/// Writes a refusal as an answer and returns the status. Where standard output does not take it, that failure is
/// reported instead.
fn report_refusal<W: Write, E: Write>(
    alloc: Global,
    failure: &Failure<'_>,
    out: &mut W,
    err: &mut E,
) -> u8
    ensures known { result < 7 }
    ensures answered { IsAnswered result (W.contents out.old) (W.contents out.new) }
{
    match report_answer(alloc, failure, out) {
        Ok(()) => 1,
        Err(other) => report_failure(&other, out, err),
    }
}

/// Reports a failure and returns the status: to a verb that reads no rows a refusal is an answer, every other failure
/// goes to standard error.
#[inline(never)]
fn report<W: Write, E: Write>(
    alloc: Global,
    verb: Verb,
    failure: &Failure<'_>,
    out: &mut W,
    err: &mut E,
) -> u8
    ensures known { result < 7 }
    ensures reported { IsReported result (status_of failure.now) verb (W.contents out.old) (W.contents out.new) }
{
    if is_answer(verb, failure) {
        report_refusal(alloc, failure, out, err)
    } else {
        report_failure(failure, out, err)
    }
}

/// How a run ended.
#[derive(Drop)]
pub struct Ended<'p> {
    /// The exit status of the program.
    pub status: u8,
    /// Why the run ended before its end, if it did.
    pub failure: Option<Failure<'p>>,
}

/// Carries out a plan as [`run`] does, and returns why it ended early beside the status.
pub fn run_to_failure<'p, R: Read + Drop, W: Write, E: Write>(
    alloc: Global,
    plan: &Plan<'p>,
    document: &[u8],
    rows: Option<R>,
    out: &mut W,
    err: &mut E,
) -> Ended<'p>
    ensures known { result.status < 7 }
    ensures answers { Answers result.status plan.entry.now document.now
        (streams (option_map (λ r. R.remaining r) rows) (W.contents out.old) (W.contents out.new)) }
    ensures done { result.failure ≡ None → result.status ≡ 0 }
{
    match carry_out(alloc, plan, document, rows, out) {
        Ok(()) => Ended {
            status: 0,
            failure: None,
        },
        Err(failure) => Ended {
            status: report(alloc, plan.verb, &failure, out, err),
            failure: Some(failure),
        },
    }
}

/// Carries out a plan over the bytes of its schema file and returns the exit status of the program.
///
/// `rows` is `None` if the rows file cannot be opened, which is reported last. `out` and `err` are standard output and
/// standard error. Kept rows and what `check` and `explain` write go to `out`; the line of another failure goes to
/// `err`, after a flush of `out`.
pub fn run<R: Read + Drop, W: Write, E: Write>(
    alloc: Global,
    plan: &Plan<'_>,
    document: &[u8],
    rows: Option<R>,
    out: &mut W,
    err: &mut E,
) -> u8
    ensures known { result < 7 }
    ensures answers { Answers result plan.entry.now document.now
        (streams (option_map (λ r. R.remaining r) rows) (W.contents out.old) (W.contents out.new)) }
{
    run_to_failure(alloc, plan, document, rows, out, err).status
}
