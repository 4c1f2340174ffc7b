//! Why a call did nothing, and how that is reported.
ghost use Rattle.std.specs.Prelude.{◌≡◌};
ghost use Rattle.call_handles.specs.Answers.{empty_answer, fault_answer, fault_status, find_number, find_place};
ghost use Rattle.call_handles.specs.Answers.{path_bytes, query_place};
ghost use Rattle.call_handles.specs.Answers.{refusal_number, refusal_status};

use crate::answer::Answer;
use csdl_schema::SchemaFault;
use edm_entities::RowFault;
use fault_numbers::{Numbered, refusal_span, row_fault_path};
use odata_eval::EvalFault;
use odata_queries::{FindFault, QueryFault};
use odata_typing::Refusal;

/// Why a call did nothing. The faults of the crates below are none when out of memory, which is `Memory` here.
#[derive(Drop)]
pub enum Fault {
    OtherKind,
    NotUtf8,
    Memory,
    UnknownType,
    NoFilter,
    MomentNeeded,
    NotAMoment,
    UnknownNumber,
    TooSmall { wanted: usize },
    Schema(SchemaFault),
    Refused(Refusal),
    Query(QueryFault),
    Whole(FindFault),
    /// Of a row by itself the line is 0.
    Json { line: u64 },
    Row { line: u64, fault: RowFault },
    Evaluation { line: u64, fault: EvalFault },
    LineTooLong { line: u64 },
    TooCostly { line: u64 },
    /// A text that no parameter of SQL holds.
    Unsayable,
    /// More than the engine's parser stores.
    TooDeep,
    /// A line about a column names no property.
    UnknownColumn,
}

/// The status of a refusal, by what is wrong with the text.
fn refusal_status(refusal: &Refusal) -> u32
    ensures { result ≡ refusal_status refusal.now }
{
    match refusal {
        Refusal::Text(_) => 17,
        Refusal::Syntax(_) => 18,
        Refusal::Typing(_) => 19,
        Refusal::Memory => 5,
    }
}

/// The number of a refusal's fault among those of its status.
fn refusal_number(refusal: &Refusal) -> u32
    ensures { result ≡ refusal_number refusal.now }
{
    match refusal {
        Refusal::Text(fault) => u32::from(fault.number()),
        Refusal::Syntax(fault) => u32::from(fault.number()),
        Refusal::Typing(fault) => u32::from(fault.code.number()),
        Refusal::Memory => 0,
    }
}

/// What is reported about a refusal.
fn refusal_answer(refusal: &Refusal) -> Answer
    ensures { result ≡ fault_answer (Fault.Refused refusal.now) }
{
    let mut answer = Answer::empty();
    answer.fault = refusal_number(refusal);
    match refusal_span(refusal) {
        Some(span) => {
            answer.start = span.start;
            answer.stop = span.stop;
        }
        None => {}
    }
    answer
}

/// The number that a query's fault carries.
fn query_place(fault: &QueryFault) -> u64
    ensures { result ≡ query_place fault.now }
{
    match fault {
        QueryFault::BadEscape { place } => *place as u64,
        QueryFault::NotUtf8 { option } => *option as u64,
        QueryFault::Repeated { option } => *option as u64,
        QueryFault::OtherOption { option } => *option as u64,
        QueryFault::Memory => 0,
    }
}

/// What is reported about a query's fault.
fn query_answer(fault: &QueryFault) -> Answer
    ensures { result ≡ fault_answer (Fault.Query fault.now) }
{
    let mut answer = Answer::empty();
    answer.fault = u32::from(fault.number());
    answer.number = query_place(fault);
    answer
}

/// The number of a fault of a whole query; those that any query has are numbered alike.
fn find_number(fault: &FindFault) -> u32
    ensures { result ≡ find_number fault.now }
{
    match fault {
        FindFault::BadEscape { .. } => 1,
        FindFault::NotUtf8 { .. } => 2,
        FindFault::Repeated { .. } => 3,
        FindFault::Disguised { .. } => 5,
        FindFault::Memory => 0,
    }
}

/// The number that a fault of a whole query carries.
fn find_place(fault: &FindFault) -> u64
    ensures { result ≡ find_place fault.now }
{
    match fault {
        FindFault::BadEscape { place } => *place as u64,
        FindFault::NotUtf8 { option } => *option as u64,
        FindFault::Repeated { option } => *option as u64,
        FindFault::Disguised { option } => *option as u64,
        FindFault::Memory => 0,
    }
}

/// An answer of a fault's number and a line.
fn numbered(fault: u32, line: u64) -> Answer
    ensures { result ≡ record empty_answer { fault = fault; number = line } }
{
    let mut answer = Answer::empty();
    answer.fault = fault;
    answer.number = line;
    answer
}

/// What is reported about a row's fault.
fn row_answer(line: u64, fault: &RowFault) -> Answer
    ensures { result ≡ fault_answer (Fault.Row line fault.now) }
{
    let mut answer = numbered(u32::from(fault.number()), line);
    answer.length = path_of(fault).len();
    answer
}

/// An answer of a length.
pub fn measured(length: usize) -> Answer
    ensures { result ≡ record empty_answer { length = length } }
{
    let mut answer = Answer::empty();
    answer.length = length;
    answer
}

impl Fault {
    /// The status that reports it.
    pub fn status(&self) -> u32
        ensures { result ≡ fault_status self.now }
    {
        match self {
            Fault::OtherKind => 2,
            Fault::NotUtf8 => 3,
            Fault::TooSmall { .. } => 4,
            Fault::Memory => 5,
            Fault::UnknownType => 6,
            Fault::NoFilter => 7,
            Fault::MomentNeeded => 8,
            Fault::NotAMoment => 9,
            Fault::UnknownNumber => 10,
            Fault::Schema(_) => 16,
            Fault::Refused(refusal) => refusal_status(refusal),
            Fault::Query(_) => 20,
            Fault::Whole(_) => 20,
            Fault::Json { .. } => 21,
            Fault::Row { .. } => 22,
            Fault::Evaluation { .. } => 23,
            Fault::LineTooLong { .. } => 24,
            Fault::TooCostly { .. } => 25,
            Fault::Unsayable => 26,
            Fault::TooDeep => 27,
            Fault::UnknownColumn => 28,
        }
    }

    /// What is reported besides the status.
    pub fn answer(&self) -> Answer
        ensures { result ≡ fault_answer self.now }
    {
        match self {
            Fault::TooSmall { wanted } => measured(*wanted),
            Fault::Schema(fault) => numbered(u32::from(fault.number()), 0),
            Fault::Query(fault) => query_answer(fault),
            Fault::Whole(fault) => numbered(find_number(fault), find_place(fault)),
            Fault::Refused(refusal) => refusal_answer(refusal),
            Fault::Json { line } => numbered(0, *line),
            Fault::LineTooLong { line } => numbered(0, *line),
            Fault::TooCostly { line } => numbered(0, *line),
            Fault::Row { line, fault } => row_answer(*line, fault),
            Fault::Evaluation { line, fault } => numbered(u32::from(fault.number()), *line),
            _ => Answer::empty(),
        }
    }
}

/// The path of a row's fault, or no text.
pub fn path_of(fault: &RowFault) -> &str
    ensures { result.now ≡ path_bytes fault.now }
{
    match row_fault_path(fault) {
        Some(path) => path,
        None => "",
    }
}
