use odata_text::Span;

/// The filter of a query: its text, decoded, and where it stands in the query, in bytes.
#[derive(Debug, Drop)]
pub struct FoundFilter {
    /// The decoded text.
    pub text: String,
    /// The whole option, with its name.
    pub piece: Span,
    /// What follows the option's first `=`; empty, and at the option's end, if it has none.
    pub value: Span,
}
