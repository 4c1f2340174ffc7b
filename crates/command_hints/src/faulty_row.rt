use odata_filter::Part;

/// A row at fault.
#[derive(Clone, Copy)]
pub struct FaultyRow<'r> {
    /// Its file; none of standard input.
    pub file: Option<&'r str>,
    /// The part of its file that is read, if not all of it.
    pub part: Option<Part>,
    /// Whether it is an entity of a collection. Else it is a line.
    pub is_entity: bool,
    /// Its number, from 1.
    pub number: u64,
    /// Its bytes, if they are available.
    pub text: Option<&'r [u8]>,
}
