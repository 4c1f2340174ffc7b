//! The canonical spellings of the values of literals.
use crate::question::Question;
use edm_values::{
    LitFault, read_date, read_guid, read_int, read_moment, read_string, write_date, write_guid,
    write_int, write_moment, write_string,
};
use jiff::civil::Date;
use std::alloc::{AllocError, Global};

/// What stands for no value.
const NONE: &str = "null";

/// Appends a date of the years 1 to 9999.
pub(crate) fn push_date(out: &mut String, date: Date) -> Result<(), AllocError> {
    if (1..=9999).contains(&date.year()) {
        write_date(out, date)
    } else {
        out.push_str("another year")
    }
}

fn push_int(out: &mut String, text: &str) -> Result<(), AllocError> {
    match read_int(text) {
        Some(number) => write_int(out, number),
        None => out.push_str(NONE),
    }
}

fn push_read_date(out: &mut String, text: &str) -> Result<(), AllocError> {
    match read_date(text) {
        Some(date) => push_date(out, date),
        None => out.push_str(NONE),
    }
}

fn push_moment(out: &mut String, text: &str) -> Result<(), AllocError> {
    match read_moment(text) {
        Some(moment) => write_moment(out, &moment),
        None => out.push_str(NONE),
    }
}

fn push_guid(out: &mut String, text: &str) -> Result<(), AllocError> {
    match read_guid(text) {
        Some(guid) => write_guid(out, guid),
        None => out.push_str(NONE),
    }
}

fn push_string(out: &mut String, alloc: Global, text: &str) -> Result<(), AllocError> {
    match read_string(alloc, text) {
        Ok(value) => write_string(out, value.as_str()),
        Err(LitFault::Memory) => Err(AllocError),
        Err(LitFault::Form) => out.push_str(NONE),
    }
}

/// Appends the canonical spelling of the literal of that kind which a text is, or `null`.
fn push_literal(out: &mut String, alloc: Global, kind: &str, text: &str) -> Result<(), AllocError> {
    match kind {
        "Int" => push_int(out, text),
        "Date" => push_read_date(out, text),
        "Moment" => push_moment(out, text),
        "Guid" => push_guid(out, text),
        "Str" => push_string(out, alloc, text),
        _ => out.push_str("no such kind"),
    }
}

/// Appends a text and that spelling. A failed write has to leave the text unchanged; else this is what it left.
pub(crate) fn push_literal_after(
    out: &mut String,
    alloc: Global,
    question: &Question<'_>,
) -> Result<(), AllocError> {
    let mut text = String::from_str(alloc, question.third)?;
    let spelled = push_literal(&mut text, alloc, question.second, question.text);
    out.push_str(text.as_str())?;
    if text.as_str() == question.third {
        spelled
    } else {
        Ok(())
    }
}

/// Appends the instant of a moment, in nanoseconds from the beginning of 1970, or `null`.
pub(crate) fn push_instant(out: &mut String, text: &str) -> Result<(), AllocError> {
    match read_moment(text) {
        Some(moment) => write!(out, "{}", moment.instant_nanos()),
        None => out.push_str(NONE),
    }
}
