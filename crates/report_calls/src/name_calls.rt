//! The version, and names of numbers.
ghost use Rattle.std.specs.Prelude.{◌≡◌, Ok, Err, MatchResult};
ghost use Rattle.report_calls.specs.Names.{fault_named, kind_under, lone_named, status_named};

use call_handles::Fault;
use fault_numbers::{FaultKind, fault_name};

pub(crate) const VERSION: &str = "0.1.0";

/// The name of a status.
pub(crate) fn name_of_status(status: u32) -> Result<&'static str, Fault>
    ensures { MatchResult result (λ name. status_named status ≡ Ok name.now)
        (λ why. status_named status ≡ Err why) }
{
    match status {
        0 => Ok("OK"),
        1 => Ok("NULL"),
        2 => Ok("OTHER_KIND"),
        3 => Ok("NOT_UTF8"),
        4 => Ok("TOO_SMALL"),
        5 => Ok("MEMORY"),
        6 => Ok("UNKNOWN_TYPE"),
        7 => Ok("NO_FILTER"),
        8 => Ok("MOMENT_NEEDED"),
        9 => Ok("NOT_A_MOMENT"),
        10 => Ok("UNKNOWN_NUMBER"),
        16 => Ok("SCHEMA_FAULT"),
        17 => Ok("TEXT_FAULT"),
        18 => Ok("SYNTAX_FAULT"),
        19 => Ok("TYPE_FAULT"),
        20 => Ok("QUERY_FAULT"),
        21 => Ok("JSON_FAULT"),
        22 => Ok("ROW_FAULT"),
        23 => Ok("EVAL_FAULT"),
        24 => Ok("LINE_TOO_LONG"),
        25 => Ok("TOO_COSTLY"),
        26 => Ok("UNSAYABLE"),
        27 => Ok("TOO_DEEP"),
        28 => Ok("UNKNOWN_COLUMN"),
        _ => Err(Fault::UnknownNumber),
    }
}

/// What has numbered faults under a status.
fn kind_of_status(status: u32) -> Option<FaultKind>
    ensures { result ≡ kind_under status }
{
    match status {
        16 => Some(FaultKind::Schema),
        17 => Some(FaultKind::Text),
        18 => Some(FaultKind::Syntax),
        19 => Some(FaultKind::Typing),
        20 => Some(FaultKind::Query),
        22 => Some(FaultKind::Row),
        23 => Some(FaultKind::Evaluation),
        _ => None,
    }
}

/// The name of the one fault of a status, which has the number 0.
fn lone_fault_name(status: u32, fault: u32) -> Result<&'static str, Fault>
    ensures { MatchResult result (λ name. lone_named status fault ≡ Ok name.now)
        (λ why. lone_named status fault ≡ Err why) }
{
    if fault != 0 {
        return Err(Fault::UnknownNumber);
    }
    match status {
        6 => Ok("UnknownType"),
        7 => Ok("NoFilter"),
        8 => Ok("MomentNeeded"),
        9 => Ok("NotAMoment"),
        21 => Ok("Json"),
        24 => Ok("LineTooLong"),
        25 => Ok("TooCostly"),
        26 => Ok("Nul"),
        27 => Ok("TooDeep"),
        28 => Ok("UnknownColumn"),
        _ => Err(Fault::UnknownNumber),
    }
}

/// The name of a fault of a status.
pub(crate) fn name_of_fault(status: u32, fault: u32) -> Result<&'static str, Fault>
    ensures { MatchResult result (λ name. fault_named status fault ≡ Ok name.now)
        (λ why. fault_named status fault ≡ Err why) }
{
    if status == 20 && fault == 5 {
        return Ok("Disguised");
    }
    let Some(kind) = kind_of_status(status) else {
        return lone_fault_name(status, fault);
    };
    let Ok(number) = u8::try_from(fault) else {
        return Err(Fault::UnknownNumber);
    };
    match fault_name(kind, number) {
        Some(name) => Ok(name),
        None => Err(Fault::UnknownNumber),
    }
}
