use csdl_schema::{Schema, TypeId};
use fault_sentences::Report;

/// A fault, the type that its filter or row is of, and where it was found.
#[derive(Clone, Copy)]
pub struct LocatedFault<'t, 's, 'f> {
    pub report: Report<'t>,
    /// The filtered type; the object's edits come of it.
    pub filtered: Option<(&'s Schema, TypeId)>,
    /// The file of the row or of the schema.
    pub file: Option<&'f str>,
    /// The line of the row, or that of the schema at which its JSON is at fault, from 1.
    pub line: Option<u64>,
    /// The byte of that line, from 1.
    pub column: Option<u64>,
}

/// A row that its input does not have.
#[derive(Clone, Copy)]
pub struct AbsentRow<'f> {
    /// The file of the rows; none of standard input.
    pub file: Option<&'f str>,
    /// The number that was asked for, from 1.
    pub line: u64,
    /// How many lines there are.
    pub lines: u64,
}
