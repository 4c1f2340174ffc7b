use csdl_schema::{Schema, TypeId};
use fault_sentences::Report;

/// A refused filter of a type, and its fault.
#[derive(Clone, Copy)]
pub struct FilterOf<'t> {
    pub schema: &'t Schema,
    pub id: TypeId,
    /// The fault of the filter; its text is the filter's.
    pub report: &'t Report<'t>,
}
