//! The names of classes and of their faults, as an object has them.
use fault_numbers::{FaultKind, fault_name};
use fault_sentences::{FaultClass, Report};

/// The name of a class.
pub fn class_name(class: FaultClass) -> &'static str {
    match class {
        FaultClass::Schema => "schema",
        FaultClass::Query => "query",
        FaultClass::Text => "text",
        FaultClass::Syntax => "syntax",
        FaultClass::Typing => "typing",
        FaultClass::Row => "row",
        FaultClass::Evaluation => "evaluation",
        FaultClass::Json => "json",
        FaultClass::Line => "line",
        FaultClass::Collection => "collection",
        FaultClass::UnknownType => "unknown_type",
        FaultClass::NoFilter => "no_filter",
        FaultClass::MomentNeeded => "moment_needed",
        FaultClass::NotAMoment => "not_a_moment",
        FaultClass::TooCostly => "too_costly",
        FaultClass::Unsayable => "unsayable",
        FaultClass::TooDeep => "too_deep",
        FaultClass::UnknownColumn => "unknown_column",
    }
}

/// The kind of faults that have numbers; `None` of a class of one fault.
fn kind_of(class: FaultClass) -> Option<FaultKind> {
    match class {
        FaultClass::Schema => Some(FaultKind::Schema),
        FaultClass::Query => Some(FaultKind::Query),
        FaultClass::Text => Some(FaultKind::Text),
        FaultClass::Syntax => Some(FaultKind::Syntax),
        FaultClass::Typing => Some(FaultKind::Typing),
        FaultClass::Row => Some(FaultKind::Row),
        FaultClass::Evaluation => Some(FaultKind::Evaluation),
        _ => None,
    }
}

/// The name of the one fault of a class.
fn lone_name(class: FaultClass) -> &'static str {
    match class {
        FaultClass::Json => "Json",
        FaultClass::Line => "LineTooLong",
        FaultClass::Collection => "NotACollection",
        FaultClass::UnknownType => "UnknownType",
        FaultClass::NoFilter => "NoFilter",
        FaultClass::MomentNeeded => "MomentNeeded",
        FaultClass::NotAMoment => "NotAMoment",
        FaultClass::TooCostly => "TooCostly",
        FaultClass::Unsayable => "Nul",
        FaultClass::TooDeep => "TooDeep",
        FaultClass::UnknownColumn => "UnknownColumn",
        _ => "",
    }
}

/// The name of a fault. That of a whole query which hides a filter stands after those of any query.
pub fn name_of(report: &Report<'_>) -> &'static str {
    match kind_of(report.class) {
        Some(FaultKind::Query) => if report.number == 5 {
            "Disguised"
        } else {
            fault_name(FaultKind::Query, report.number).unwrap_or("")
        },
        Some(kind) => fault_name(kind, report.number).unwrap_or(""),
        None => lone_name(report.class),
    }
}
