//! Readers that end with a line.
ghost use Rattle.line_filter.specs.private.PartText.{left_through};

use super::line_feeds::line_feed_of_few;
use std::io;
use std::io::Read;

/// Reads up to the end of a line: up to the first LF after so many bytes, and that.
#[derive(Drop)]
pub(crate) struct ThroughLine<R> {
    pub(crate) reader: R,
    /// How many bytes come before the first of which an LF is the last byte that is read.
    pub(crate) before: u64,
    pub(crate) is_over: bool,
}

impl<R: Read> Read for ThroughLine<R> {
    ghost remaining = { left_through R.remaining };

    fn read(&mut self, bytes: &mut [u8]) -> io::Result<usize> {
        if self.is_over {
            return Ok(0);
        }
        let count = self.reader.read(bytes)?;
        let before = self.before.min(count as u64);
        match line_feed_of_few(bytes, before as usize, count) {
            Some(feed) => {
                self.is_over = true;
                Ok(feed + 1)
            }
            None => {
                self.before -= before;
                Ok(count)
            }
        }
    }
}
