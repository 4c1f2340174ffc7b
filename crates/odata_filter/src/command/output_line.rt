//! A line for one of the program's streams.
use line_filter::{Unlogged, write_out};
use std::fmt::{Display, Write};
use std::{fmt, io};

/// Takes text for a writer. Each error of that is one: no call is tried again.
#[derive(Drop)]
struct Line<'w, W> {
    out: &'w mut W,
}

impl<W: io::Write> Write for Line<'_, W> {
    fn write_str(&mut self, text: &str) -> fmt::Result {
        match write_out::<W, Unlogged>(self.out, text.as_bytes()) {
            Ok(()) => Ok(()),
            Err(_) => Err(fmt::Error),
        }
    }
}

/// Writes the text and LF, without a flush.
pub fn write_line<W: io::Write, D: Display>(out: &mut W, text: &D) -> fmt::Result {
    let mut line = Line { out };
    writeln!(line, "{text}")
}
