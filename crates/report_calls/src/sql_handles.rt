//! Conditions of SQL as a handle.
ghost use Rattle.call_handles.specs.declared.call_fault.Fault.{Fault};
ghost use Rattle.std.specs.Prelude.{◌≡◌, MatchResult, option_map};
ghost use Rattle.report_calls.specs.SqlCalls.{IsNoSql};
ghost use Rattle.report_calls.specs.SqlHandles.{HoldsConditions, IsSqlHandle, conditions_held, statement_held};

use crate::sql_calls::{Translated, conditions_of};
use call_handles::{ConditionsHandle, Fault, Handle, SqlStatement};
use odata_sql::{Conditions, Statement};
use std::alloc::Global;

fn held_statement(statement: Statement) -> SqlStatement
    ensures { result ≡ statement_held statement }
{
    let Statement { text, parameters } = statement;
    SqlStatement { text, parameters }
}

fn held_fault(fault: Option<Statement>) -> Option<SqlStatement>
    ensures { result ≡ option_map statement_held fault }
{
    match fault {
        Some(fault) => Some(held_statement(fault)),
        None => None,
    }
}

/// What was found as a handle has it.
fn held_conditions(found: Translated) -> ConditionsHandle
    ensures { result ≡ conditions_held found.dialect found.conditions }
{
    let Translated {
        dialect,
        conditions,
    } = found;
    let Conditions {
        outcome,
        keep,
        fault,
    } = conditions;
    ConditionsHandle {
        dialect,
        outcome: held_statement(outcome),
        keep: held_statement(keep),
        fault: held_fault(fault),
    }
}

fn handle_of(alloc: Global, held: ConditionsHandle) -> Result<Handle, Fault>
    ensures { MatchResult result (HoldsConditions held) (λ fault. fault ≡ Fault.Memory) }
{
    match Box::new(alloc, held) {
        Ok(held) => Ok(Handle::Conditions(held)),
        Err(_) => Err(Fault::Memory),
    }
}

/// The conditions of the filter that a handle is, as a handle.
pub(crate) fn sql_handle(
    alloc: Global,
    filter: &Handle,
    form: u32,
    how: &[u8],
) -> Result<Handle, Fault>
    ensures { MatchResult result (λ made. IsSqlHandle filter.now form how.now made) (IsNoSql filter.now form how.now) }
{
    match conditions_of(alloc, filter, form, how) {
        Ok(found) => handle_of(alloc, held_conditions(found)),
        Err(fault) => Err(fault),
    }
}
