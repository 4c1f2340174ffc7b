ghost use Rattle.std.specs.Prelude.{◌≡◌, ◌+◌, ◌<◌, ◌≤◌, [], length, take, drop, IfOk, IsTrue, OnOk, OnErr};
ghost use Rattle.std.specs.Io.KnownBytes.{Consumes, IsAtEnd, Keeps};
ghost use Rattle.std.specs.Str.{IsAscii};
ghost use Rattle.memchr.specs.Find.{IsFirstByte, is_byte};
ghost use Rattle.line_filter.specs.CallLogs.{after_work, after_failure};
ghost use Rattle.line_filter.specs.Lines.{longest_line, most_held};
ghost use Rattle.line_filter.specs.private.Waits.{Comes};

use super::device::{NotRead, Reads};
use super::line_feeds::first_line_feed;
use super::line_outcome::LONGEST_LINE;
use std::alloc::{AllocError, Global};
use std::io::Read;
use std::marker::Model;

/// How many bytes the buffer has at first, and the least that it grows by.
const FIRST_ROOM: usize = 16_384;

/// The most bytes that one read is asked for.
pub const ONE_READ: usize = 65_536;

/// The most bytes that the buffer has: a line that is not yet too long, and one read.
pub const MOST_HELD: usize = LONGEST_LINE + ONE_READ;

/// What was read and not given yet, and the line that was given last.
///
/// The vector is as long as what may be filled. What waits stands from `start` to `filled`; up to `searched` it has no
/// LF. The line that was given last stands from `line` to `line_end`.
#[derive(Drop)]
pub struct Buffer {
    bytes: Vec<u8>,
    line: usize,
    line_end: usize,
    start: usize,
    searched: usize,
    filled: usize,
    /// Whether the bytes from `start` to `searched` are seen to be of ASCII.
    is_ascii: bool,
    /// Whether those of the line that was given last are.
    is_line_ascii: bool,
}

impl Model for Buffer {
    ghost use Rattle.line_filter.specs.private.Waits.{Waits};

    ghost Value = { Waits };

    ghost use Rattle.line_filter.specs.private.Buffer.{waits, IsBuffer};

    ghost view = { waits };

    ghost invariant = { IsBuffer };
}

impl Buffer {
    /// An empty buffer. It takes no memory.
    pub fn new(alloc: Global) -> Buffer
        ensures waiting { result.waiting ≡ [] }
        ensures line { result.line ≡ [] }
        ensures held { result.held ≡ 0 }
    {
        Buffer {
            bytes: Vec::new(alloc),
            line: 0,
            line_end: 0,
            start: 0,
            searched: 0,
            filled: 0,
            is_ascii: false,
            is_line_ascii: false,
        }
    }

    /// How long the vector is.
    pub fn held(&self) -> usize
        ensures length { result ≡ self.now.held }
        ensures bounded { result ≤ most_held }
    {
        self.bytes.len()
    }

    /// The line that was given last.
    pub fn line(&self) -> &[u8]
        ensures { result.now ≡ self.now.line }
    {
        &self.bytes.as_slice()[self.line..self.line_end]
    }

    /// The line that was given last, and all that follows it in the vector.
    #[inline(always)]
    pub fn front(&self) -> &[u8]
        ensures { take (length self.now.line) result.now ≡ self.now.line }
    {
        &self.bytes.as_slice()[self.line..]
    }

    /// Whether the line that was given last is seen to be of ASCII.
    #[inline(always)]
    pub fn is_line_ascii(&self) -> bool
        ensures { IsTrue result → IsAscii self.now.line }
    {
        self.is_line_ascii
    }

    /// How many bytes wait.
    pub fn waiting(&self) -> usize
        ensures length { result ≡ length self.now.waiting }
        ensures bounded { result ≤ most_held }
    {
        self.filled - self.start
    }

    /// How many bytes wait before the first LF. Only bytes that were not searched before are looked at.
    pub fn find_line_feed(&mut self) -> Option<usize>
        ensures same { self.new ≡ self.old }
        ensures found { IsFirstByte (is_byte 10) self.old.waiting result }
    {
        // What an earlier search passed is not looked at again, so of such a line ASCII is not seen.
        let is_whole = self.searched == self.start;
        match first_line_feed(self.bytes.as_slice(), self.searched, self.filled) {
            Some((feed, is_ascii)) => {
                self.is_ascii = is_ascii & is_whole;
                self.searched = feed;
                Some(feed - self.start)
            }
            None => {
                self.is_ascii = false;
                self.searched = self.filled;
                None
            }
        }
    }

    /// Gives the line of this length, after which an LF stands.
    pub fn give_line(&mut self, count: usize)
        requires { count < length self.old.waiting }
        ensures line { self.new.line ≡ take count self.old.waiting }
        ensures waiting { self.new.waiting ≡ drop (count + 1) self.old.waiting }
        ensures held { self.new.held ≡ self.old.held }
    {
        self.is_line_ascii = self.is_ascii & (self.start + count <= self.searched);
        self.line = self.start;
        self.line_end = self.start + count;
        self.start = self.line_end + 1;
        self.searched = self.start;
    }

    /// Gives all that waits.
    pub fn give_rest(&mut self)
        ensures line { self.new.line ≡ self.old.waiting }
        ensures waiting { self.new.waiting ≡ [] }
        ensures held { self.new.held ≡ self.old.held }
    {
        self.is_line_ascii = false;
        self.line = self.start;
        self.line_end = self.filled;
        self.start = self.filled;
        self.searched = self.filled;
    }

    /// Moves what waits to the front, where it does not stand there. No line is held as given from then on.
    pub fn move_to_front(&mut self)
        ensures waiting { self.new.waiting ≡ self.old.waiting }
        ensures held { self.new.held ≡ self.old.held }
        ensures front { length self.new.waiting + self.new.room ≡ self.new.held }
    {
        self.line = 0;
        self.line_end = 0;
        self.is_ascii = false;
        self.is_line_ascii = false;
        if self.start > 0 {
            self.bytes.copy_within(self.start..self.filled, 0);
            self.filled -= self.start;
            self.searched -= self.start;
            self.start = 0;
        }
    }

    /// Makes the vector longer, where nothing more can be filled.
    pub fn grow(&mut self) -> Result<(), AllocError>
        requires front { length self.old.waiting + self.old.room ≡ self.old.held }
        requires unended { length self.old.waiting ≤ longest_line }
        ensures waiting { self.new.waiting ≡ self.old.waiting }
        ensures room { OnOk result (0 < self.new.room) }
    {
        if self.filled < self.bytes.len() {
            return Ok(());
        }
        let wanted = (self.filled + self.filled.max(FIRST_ROOM)).min(MOST_HELD);
        self.bytes.resize(wanted, 0)
    }

    /// One read of at most so many bytes after those that wait. It returns how many came; none mean the reader's end.
    pub fn fill<R: Read, S: Reads<R>>(
        &mut self,
        reader: &mut R,
        most: usize,
        held_back: &[u8],
    ) -> Result<usize, NotRead>
        requires none_held_back { held_back.now ≡ [] }
        requires room { 0 < self.old.room }
        requires some { 0 < most }
        requires few { most ≤ 65536 }
        ensures ok { IfOk result (λ count. Comes self.old.waiting self.new.waiting count
            (Consumes (R.remaining reader.old) (R.remaining reader.new))) }
        ensures fits { IfOk result (λ count. count ≤ most) }
        ensures end { IfOk result (λ count. count ≡ 0 → IsAtEnd (R.remaining reader.new)) }
        ensures err { OnErr result ((self.new.waiting ≡ self.old.waiting)
            × Keeps (R.remaining reader.old) (R.remaining reader.new)) }
        ensures failed { OnErr result (S.calls reader.new ≡ after_failure (S.calls reader.old)) }
        ensures worked { OnOk result (S.calls reader.new ≡ after_work (S.calls reader.old)) }
    {
        let stop = self.bytes.len().min(self.filled + most);
        let bytes = self.bytes.as_mut_slice();
        let count = read_at::<R, S>(reader, bytes, self.filled, stop, held_back)?;
        self.filled += count;
        Ok(count)
    }
}

/// One read into these bytes, from the one offset to the other.
fn read_at<R: Read, S: Reads<R>>(
    reader: &mut R,
    bytes: &mut [u8],
    filled: usize,
    stop: usize,
    held_back: &[u8],
) -> Result<usize, NotRead>
    requires none_held_back { held_back.now ≡ [] }
    requires room { filled < stop }
    requires within { stop ≤ length bytes.old }
    requires few { stop ≤ filled + 65536 }
    ensures len { length bytes.new ≡ length bytes.old }
    ensures front { take filled bytes.new ≡ take filled bytes.old }
    ensures fits { IfOk result (λ n. filled + n ≤ stop) }
    ensures ok { IfOk result (λ n.
        Consumes (R.remaining reader.old) (R.remaining reader.new) (take n (drop filled bytes.new))) }
    ensures end { IfOk result (λ n. n ≡ 0 → IsAtEnd (R.remaining reader.new)) }
    ensures err { OnErr result (Keeps (R.remaining reader.old) (R.remaining reader.new)) }
    ensures failed { OnErr result (S.calls reader.new ≡ after_failure (S.calls reader.old)) }
    ensures worked { OnOk result (S.calls reader.new ≡ after_work (S.calls reader.old)) }
{
    S::read(reader, &mut bytes[filled..stop], held_back)
}
