//! What stands before the line of a fault of rows.
use odata_filter::Part;
use odata_filter::command_line::{Plan, RunRequest};
use std::fmt;
use std::fmt::{Display, Formatter};

/// What stands before a line: the name of a file, of several, or which part of its file is read.
#[derive(Clone, Copy)]
pub enum LinePrefix<'n> {
    Nothing,
    File(&'n str),
    Part(Part),
}

impl<'n> LinePrefix<'n> {
    /// That of a plan over one of the files of a request.
    pub fn of(request: &RunRequest<'_>, plan: &Plan<'n>) -> LinePrefix<'n> {
        match (request.part, plan.rows) {
            (Some(part), _) => LinePrefix::Part(part),
            (None, Some(file)) if 1 < request.rows.len() => LinePrefix::File(file),
            _ => LinePrefix::Nothing,
        }
    }
}

impl Display for LinePrefix<'_> {
    fn fmt<W: fmt::Write>(&self, f: &mut Formatter<W>) -> fmt::Result {
        match self {
            LinePrefix::Nothing => Ok(()),
            LinePrefix::File(name) => write!(f, "{name}: "),
            LinePrefix::Part(part) => write!(f, "part {}/{}: ", part.number, part.count),
        }
    }
}
