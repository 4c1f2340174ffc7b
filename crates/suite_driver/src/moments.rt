//! Moments: their order, and those of parts.
use edm_values::{Moment, read_moment};
use jiff::civil::{self, DateTime};
use std::alloc::AllocError;

/// Returns the moment that a text is, the beginning of the year 1 by UTC of an empty one.
pub(crate) fn moment_of(text: &str) -> Option<Moment> {
    if text.is_empty() {
        Moment::new(civil::date(1, 1, 1).at(0, 0, 0, 0), 0)
    } else {
        read_moment(text)
    }
}

/// Appends how two moments stand: by their order, whether they are equal, and whether the first is less.
pub(crate) fn push_order(out: &mut String, left: &str, right: &str) -> Result<(), AllocError> {
    match (&read_moment(left), &read_moment(right)) {
        (Some(first), Some(second)) => {
            let (is_equal, is_less) = (first == second, first < second);
            write!(out, "{:?} {is_equal} {is_less}", first.cmp(second))
        }
        _ => out.push_str("no moment"),
    }
}

/// The moment at the beginning of a year, by an offset in minutes.
fn beginning_of(year: i16, offset: i16) -> Option<(DateTime, Moment)> {
    let civil = DateTime::new(year, 1, 1, 0, 0, 0, 0).ok()?;
    Some((civil, Moment::new(civil, offset)?))
}

/// Appends whether the moment at the beginning of a year, by an offset in minutes, has these parts, or `null`.
pub(crate) fn push_parts(out: &mut String, year: &str, offset: &str) -> Result<(), AllocError> {
    let year = year.parse::<i16>().unwrap_or(0);
    let offset = offset.parse::<i16>().unwrap_or(0);
    match &beginning_of(year, offset) {
        Some((civil, made)) => {
            let has_parts = made.civil() == *civil && made.offset_minutes() == offset;
            write!(out, "{has_parts}")
        }
        None => out.push_str("null"),
    }
}
