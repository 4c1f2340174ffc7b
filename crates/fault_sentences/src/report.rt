use super::fault_class::FaultClass;
use odata_text::Span;

/// A fault, and what it is about.
#[derive(Clone, Copy)]
pub struct Report<'t> {
    pub class: FaultClass,
    /// The fault's number in its class.
    pub number: u8,
    /// Of a filter, where in its text the fault is. Of a query, `start` is the byte or the option that the fault
    /// names. Of a schema, `start` is how many bytes of `text` are the first name.
    pub span: Span,
    /// The filter's text, the query, the path of a row's fault, the names of a schema's fault without a gap, the
    /// name of an unknown type, or the text that is not a moment.
    pub text: &'t str,
    /// The type that the filter is checked for, if it is to be named.
    pub type_name: Option<&'t str>,
}
