use std::fmt::{self, Display, Formatter, Write};

/// A range of bytes of the decoded text: from `start` up to `stop`.
///
/// It is displayed as `START..STOP`.
#[derive(Clone, Copy, Debug, PartialEq, Eq)]
pub struct Span {
    pub start: usize,
    pub stop: usize,
}

impl Display for Span {
    fn fmt<W: Write>(&self, f: &mut Formatter<W>) -> Result<(), fmt::Error> {
        write!(f, "{}..{}", self.start, self.stop)
    }
}
