ghost use Rattle.std.specs.Prelude.{◌≡◌, ◌≢◌, ◌↔◌, ◌-◌, ◌<◌, ◌≤◌, ◌^◌, [], length, take, IsTrue, Ok, Err, None, MatchOption, MatchResult, IfOk, IfErr, IfSome, IfNone};
ghost use Rattle.std.specs.Borrow.{sem};
ghost use Rattle.std.specs.Io.BufRead.{Rests};
ghost use Rattle.std.specs.Io.KnownBytes.{Keeps, IsAtEnd};
ghost use Rattle.std.specs.Str.{IsAscii};
ghost use Rattle.line_filter.specs.Lines.{longest_line, most_held};
ghost use Rattle.line_filter.specs.LineSource.{left_of, BeginsTooLong, GivesLine, IsNoWholeLine, IsOver};
ghost use Rattle.line_filter.specs.contracts.line_reader.LineReader.{the_row};
ghost use Rattle.line_filter.specs.private.Giving.{Gives, GivesAgain, bytes_to_come, line_to_come};
ghost use Rattle.line_filter.specs.private.Reading.{IsUnread, ReadsOn};

use super::buffer::{Buffer, ONE_READ};
use super::device::Reads;
use super::line_outcome::LONGEST_LINE;
use super::strategies::Unlogged;
use std::alloc::Global;
use std::io::Read;
use std::marker::Model;
use thiserror::Error;

/// The most bytes that are read: after them the next read counts as failed.
const MOST_BYTES: usize = 0x7fff_ffff_ffff_ffff;

/// Why there is no next line.
#[derive(Clone, Copy, Debug, PartialEq, Eq, Error)]
pub enum LineFault {
    /// The line has more than 1,048,576 bytes before its LF.
    #[error("the line is too long")]
    TooLong,
    /// A read failed, or 2^63 - 1 bytes were read.
    #[error("a read failed")]
    Read,
    /// An allocation failed.
    #[error("out of memory")]
    Memory,
}

/// How far a reader of lines has come. At the end and after a fault nothing more is read.
#[derive(Clone, Copy, Debug, PartialEq, Eq)]
pub enum Course {
    Open,
    AtEnd,
    Failed(LineFault),
}

/// What comes next.
#[derive(Clone, Copy, Debug, PartialEq, Eq)]
pub enum Next {
    /// A line that is not empty.
    Line,
    /// A line without a byte.
    Empty,
    End,
    Fault(LineFault),
}

/// Gives the lines of a reader one by one, each borrowed from its one buffer.
///
/// It asks the reader for at most 65,536 bytes at a time, and only when it holds no whole line.
#[derive(Drop)]
pub struct LineReader<R: Read> {
    reader: R,
    buffer: Buffer,
    /// How many more bytes may be read.
    unread: usize,
    course: Course,
}

impl<R: Read> Model for LineReader<R> {
    ghost use Rattle.line_filter.specs.LineSource.{LineSource};

    ghost Value = { LineSource R };

    ghost use Rattle.line_filter.specs.private.LineReader.{source, IsSource};

    ghost view = { λ l. source l };

    ghost invariant = { λ l. IsSource R.remaining l };
}

impl<R: Read> LineReader<R> {
    /// Creates a reader of lines. It takes no memory before the first line is asked for.
    pub fn new(alloc: Global, reader: R) -> LineReader<R>
        ensures reader { result.reader ≡ reader }
        ensures waiting { result.waiting ≡ [] }
        ensures held { result.held ≡ 0 }
        ensures unread { result.unread ≡ 2 ^ 63 - 1 }
        ensures course { result.course ≡ Course.Open }
        ensures left { left_of R.remaining result ≡ R.remaining reader }
    {
        LineReader {
            reader,
            buffer: Buffer::new(alloc),
            unread: MOST_BYTES,
            course: Course::Open,
        }
    }

    /// Returns the length of the buffer, in bytes. It is at most 1,114,112.
    pub fn held(&self) -> usize
        ensures length { result ≡ self.now.held }
        ensures bounded { result ≤ most_held }
    {
        self.buffer.held()
    }

    /// Returns the reader beneath, to look at.
    pub fn reader(&self) -> &R
        ensures { result.now ≡ self.now.reader }
    {
        &self.reader
    }

    /// How many bytes may still be given, so how many lines at most.
    pub(crate) fn to_come(&self) -> usize
        ensures exact { result ≡ bytes_to_come self.now }
        ensures few { result < 2 ^ 64 - 1 }
    {
        self.buffer.waiting() + self.unread
    }

    /// The line that was given last, without its LF; nothing before the first one.
    pub(crate) fn line(&self) -> &[u8]
        ensures { result.now ≡ self.now.line }
    {
        self.buffer.line()
    }

    /// The line that was given last, and what follows it in the buffer.
    #[inline(always)]
    pub(crate) fn front(&self) -> &[u8]
        ensures { take (length self.now.line) result.now ≡ self.now.line }
    {
        self.buffer.front()
    }

    /// Whether the line that was given last is seen to be of ASCII.
    #[inline(always)]
    pub(crate) fn is_line_ascii(&self) -> bool
        ensures { IsTrue result → IsAscii self.now.line }
    {
        self.buffer.is_line_ascii()
    }

    /// Gives the line that is held whole, if there is one, or reports that the line is too long.
    fn give_held(&mut self) -> Option<Next>
        requires { self.old.course ≡ Course.Open }
        ensures given { MatchOption result (IsNoWholeLine self.old.waiting × (self.new ≡ self.old))
            (λ next. Gives R.remaining self.old self.new next × (next ≢ Next.End)) }
        ensures reader { self.new.reader ≡ self.old.reader }
        ensures unread { self.new.unread ≡ self.old.unread }
        ensures none_failed { ¬ IsUnread self.new }
    {
        let length = match self.buffer.find_line_feed() {
            Some(length) => length,
            None => {
                if self.buffer.waiting() <= LONGEST_LINE {
                    return None;
                }
                self.course = Course::Failed(LineFault::TooLong);
                return Some(Next::Fault(LineFault::TooLong));
            }
        };
        if length > LONGEST_LINE {
            self.course = Course::Failed(LineFault::TooLong);
            return Some(Next::Fault(LineFault::TooLong));
        }
        self.buffer.give_line(length);
        if length == 0 {
            return Some(Next::Empty);
        }
        Some(Next::Line)
    }

    /// Gives what waits after the last LF, once the reader has reached its end.
    fn give_last(&mut self) -> Next
        requires { self.old.course ≡ Course.AtEnd }
        ensures given { Gives R.remaining self.old self.new result }
        ensures again { GivesAgain self.old result }
        ensures reader { self.new.reader ≡ self.old.reader }
        ensures unread { self.new.unread ≡ self.old.unread }
        ensures none_failed { ¬ IsUnread self.new }
    {
        if self.buffer.waiting() == 0 {
            return Next::End;
        }
        self.buffer.give_rest();
        Next::Line
    }

    /// Gives what comes next, unless it must be read first.
    pub(crate) fn give(&mut self) -> Option<Next>
        ensures given { MatchOption result
            ((self.old.course ≡ Course.Open) × IsNoWholeLine self.old.waiting × (self.new ≡ self.old))
            (λ next. Gives R.remaining self.old self.new next) }
        ensures again { IfSome result (GivesAgain self.old) }
        ensures reader { self.new.reader ≡ self.old.reader }
        ensures unread { self.new.unread ≡ self.old.unread }
        ensures reported { IsUnread self.new ↔ IsUnread self.old }
    {
        match self.course {
            Course::Open => self.give_held(),
            Course::AtEnd => Some(self.give_last()),
            Course::Failed(fault) => Some(Next::Fault(fault)),
        }
    }

    /// Reads once. What was kept so far must have been written by then: nothing of it is held back. It stands apart, so
    /// that the code of a line that is there already stays small.
    #[inline(never)]
    pub(crate) fn read_more<S: Reads<R>>(&mut self, held_back: &[u8])
        requires none_held_back { held_back.now ≡ [] }
        requires open { self.old.course ≡ Course.Open }
        requires unended { IsNoWholeLine self.old.waiting }
        ensures left { Keeps (left_of R.remaining self.old) (left_of R.remaining self.new) }
        ensures to_come { bytes_to_come self.new ≡ bytes_to_come self.old }
        ensures sooner { line_to_come self.new < line_to_come self.old }
        ensures reads { ReadsOn S.calls R.remaining self.old self.new }
    {
        if self.unread == 0 {
            self.course = Course::Failed(LineFault::Read);
            return;
        }
        self.buffer.move_to_front();
        match self.buffer.grow() {
            Ok(()) => {}
            Err(_) => {
                self.course = Course::Failed(LineFault::Memory);
                return;
            }
        }
        let most = self.unread.min(ONE_READ);
        match self.buffer.fill::<R, S>(&mut self.reader, most, held_back) {
            Ok(0) => self.course = Course::AtEnd,
            Ok(count) => self.unread -= count,
            Err(_) => self.course = Course::Failed(LineFault::Read),
        }
    }

    /// Goes to the next line, if there is one.
    fn advance(&mut self) -> Next
        ensures given { Gives R.remaining self.old self.new result }
        ensures again { GivesAgain self.old result }
    {
        loop {
            match self.give() {
                Some(next) => return next,
                None => self.read_more::<Unlogged>(&[]),
            }
        }
    }

    /// Reads the next line without its LF, or `None` if no byte is left.
    ///
    /// `TooLong` is returned once more than 1,048,576 bytes of a line are held, whatever would follow. After a fault
    /// every call returns the same fault, and after the end every call returns `None`.
    pub fn next_line(&mut self) -> Result<Option<&[u8]>, LineFault>
        ensures* left { sem 𝓛 (Rests (the_row R.row R.Read) self.entry (λ new. MatchResult result
            (λ next. MatchOption next (IsOver new × Keeps (left_of R.remaining self.old) (left_of R.remaining new))
            (λ line. GivesLine (left_of R.remaining self.old) (left_of R.remaining new) line.now))
            (λ fault. (new.course ≡ Course.Failed fault) × (fault ≢ LineFault.TooLong → IsNoWholeLine new.waiting)
            × Keeps (left_of R.remaining self.old) (left_of R.remaining new)))) }
        ensures short { IfOk result (λ next. IfSome next (λ line. length line.now ≤ longest_line)) }
        ensures none_left { IfOk result (λ next. IfNone next (IsAtEnd (left_of R.remaining self.old))) }
        ensures too_long { IfErr result (λ fault. fault ≡ LineFault.TooLong
            → IfSome (left_of R.remaining self.old) BeginsTooLong) }
        ensures held { IfErr result (λ fault. fault ≢ LineFault.TooLong → IsNoWholeLine self.old.waiting) }
        ensures over { IsOver self.old → result ≡ Ok None }
        ensures failed { (fault : LineFault) → self.old.course ≡ Course.Failed fault → result ≡ Err fault }
    {
        match self.advance() {
            Next::Line | Next::Empty => Ok(Some(self.line())),
            Next::End => Ok(None),
            Next::Fault(fault) => Err(fault),
        }
    }
}
