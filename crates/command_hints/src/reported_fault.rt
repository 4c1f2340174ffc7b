//! The failure of a run as sentences and objects take it.
use crate::failed_run::FailedRun;
use csdl_schema::SchemaFault;
use fault_sentences::{FaultClass, Report};
use odata_filter::{Failure, Numbered, RunFault, refusal_span, row_fault_path};
use odata_queries::{QueryFault, filter_of_query};
use odata_text::Span;
use odata_typing::Refusal;
use std::alloc::{AllocError, Global};

/// A fault, and a copy of the text that it is about.
#[derive(Drop)]
pub struct ReportedFault {
    class: FaultClass,
    number: u8,
    span: Span,
    text: String,
}

impl ReportedFault {
    /// The report of it, of a filter of the type of that name.
    pub fn report<'t>(&'t self, type_name: Option<&'t str>) -> Report<'t> {
        Report {
            class: self.class,
            number: self.number,
            span: self.span,
            text: self.text.as_str(),
            type_name,
        }
    }
}

fn span_at(offset: usize) -> Span {
    Span {
        start: offset,
        stop: offset,
    }
}

/// A class with one fault, about that text.
fn lone(alloc: Global, class: FaultClass, text: &str) -> Result<ReportedFault, AllocError> {
    numbered(alloc, class, 0, text)
}

/// A fault by its number, about that text.
fn numbered(
    alloc: Global,
    class: FaultClass,
    number: u8,
    text: &str,
) -> Result<ReportedFault, AllocError> {
    Ok(ReportedFault {
        class,
        number,
        span: span_at(0),
        text: String::from_str(alloc, text)?,
    })
}

/// The text of the filter that a run was asked for.
fn filter_text(alloc: Global, run: &FailedRun<'_, '_, '_>) -> Result<String, AllocError> {
    match (run.plan.filter, run.plan.query) {
        (Some(text), _) => String::from_str(alloc, text),
        (None, Some(query)) => match filter_of_query(alloc, query.as_bytes()) {
            Ok(Some(text)) => Ok(text),
            _ => Ok(String::new(alloc)),
        },
        (None, None) => Ok(String::new(alloc)),
    }
}

/// The class of a refusal's fault, and its number there; `None` if an allocation failed.
fn class_and_number(refusal: &Refusal) -> Option<(FaultClass, u8)> {
    match refusal {
        Refusal::Text(fault) => Some((FaultClass::Text, fault.number())),
        Refusal::Syntax(fault) => Some((FaultClass::Syntax, fault.number())),
        Refusal::Typing(fault) => Some((FaultClass::Typing, fault.code.number())),
        Refusal::Memory => None,
    }
}

fn of_refusal(
    alloc: Global,
    run: &FailedRun<'_, '_, '_>,
    refusal: &Refusal,
) -> Result<Option<ReportedFault>, AllocError> {
    let (Some((class, number)), Some(span)) = (class_and_number(refusal), refusal_span(refusal))
    else {
        return Ok(None);
    };
    Ok(Some(ReportedFault {
        class,
        number,
        span,
        text: filter_text(alloc, run)?,
    }))
}

/// Of an escape the number is a byte of the query, of the others that of an option.
fn of_query(
    alloc: Global,
    query: &str,
    fault: &QueryFault,
) -> Result<Option<ReportedFault>, AllocError> {
    let offset = match fault {
        QueryFault::BadEscape { place } => *place,
        QueryFault::NotUtf8 { option }
        | QueryFault::Repeated { option }
        | QueryFault::OtherOption { option } => *option,
        QueryFault::Memory => return Ok(None),
    };
    Ok(Some(ReportedFault {
        class: FaultClass::Query,
        number: fault.number(),
        span: span_at(offset),
        text: String::from_str(alloc, query)?,
    }))
}

/// The names that a fault of a schema carries.
fn schema_names(fault: &SchemaFault) -> (&str, &str) {
    match fault {
        SchemaFault::BadType { name } => (name.as_str(), ""),
        SchemaFault::UnknownBase { owner } | SchemaFault::BaseCycle { owner } => {
            (owner.as_str(), "")
        }
        SchemaFault::BadProperty { owner, name }
        | SchemaFault::PropertyTwice { owner, name }
        | SchemaFault::BadEnumMember { owner, name } => (owner.as_str(), name.as_str()),
        _ => ("", ""),
    }
}

fn of_schema(alloc: Global, fault: &SchemaFault) -> Result<Option<ReportedFault>, AllocError> {
    if matches!(fault, SchemaFault::Memory) {
        return Ok(None);
    }
    let (first, second) = schema_names(fault);
    Ok(Some(ReportedFault {
        class: FaultClass::Schema,
        number: fault.number(),
        span: span_at(first.len()),
        text: format!(in alloc; "{first}{second}")?,
    }))
}

fn of_rows(alloc: Global, fault: &RunFault) -> Result<Option<ReportedFault>, AllocError> {
    Ok(match fault {
        RunFault::Json { .. } => Some(lone(alloc, FaultClass::Json, "")?),
        RunFault::Row { fault, .. } => Some(numbered(
            alloc,
            FaultClass::Row,
            fault.number(),
            row_fault_path(fault).unwrap_or(""),
        )?),
        RunFault::Arithmetic { fault, .. } => Some(numbered(
            alloc,
            FaultClass::Evaluation,
            fault.number(),
            "",
        )?),
        RunFault::LineTooLong { .. } => Some(lone(alloc, FaultClass::Line, "")?),
        RunFault::NotACollection => Some(lone(alloc, FaultClass::Collection, "")?),
        RunFault::Read { .. } | RunFault::Write | RunFault::Memory { .. } => None,
    })
}

/// What a run's failure is a fault of. `None` of one of a device or of memory, and of what the command line lacks.
pub fn reported_fault(
    alloc: Global,
    run: &FailedRun<'_, '_, '_>,
) -> Result<Option<ReportedFault>, AllocError> {
    let plan = run.plan;
    match run.failure {
        Failure::Schema(fault) => of_schema(alloc, fault),
        Failure::UnknownType(name) => Ok(Some(lone(alloc, FaultClass::UnknownType, name)?)),
        Failure::Query(fault) => of_query(alloc, plan.query.unwrap_or(""), fault),
        Failure::NoOption => {
            Ok(Some(lone(alloc, FaultClass::NoFilter, plan.query.unwrap_or(""))?))
        }
        Failure::Refused(refusal) => of_refusal(alloc, run, refusal),
        Failure::NotAMoment => {
            Ok(Some(lone(alloc, FaultClass::NotAMoment, plan.now.unwrap_or(""))?))
        }
        Failure::NoMoment => Ok(Some(lone(alloc, FaultClass::MomentNeeded, "")?)),
        Failure::Rows(fault) => of_rows(alloc, fault),
        Failure::OneOf | Failure::RowsFile(_) => Ok(None),
    }
}
