//! A reader and a writer that give or take little at a time, count their calls, and stumble at one of them.
use crate::question::number_of;
use std::alloc::Global;
use std::cell::Cell;
use std::io;
use std::io::{ErrorKind, Read, Write};

/// The kinds of error of `std`.
const KINDS: &[ErrorKind] = &[
    ErrorKind::NotFound,
    ErrorKind::PermissionDenied,
    ErrorKind::ConnectionRefused,
    ErrorKind::ConnectionReset,
    ErrorKind::HostUnreachable,
    ErrorKind::NetworkUnreachable,
    ErrorKind::ConnectionAborted,
    ErrorKind::NotConnected,
    ErrorKind::AddrInUse,
    ErrorKind::AddrNotAvailable,
    ErrorKind::NetworkDown,
    ErrorKind::BrokenPipe,
    ErrorKind::AlreadyExists,
    ErrorKind::WouldBlock,
    ErrorKind::NotADirectory,
    ErrorKind::IsADirectory,
    ErrorKind::DirectoryNotEmpty,
    ErrorKind::ReadOnlyFilesystem,
    ErrorKind::FilesystemLoop,
    ErrorKind::StaleNetworkFileHandle,
    ErrorKind::InvalidInput,
    ErrorKind::InvalidData,
    ErrorKind::TimedOut,
    ErrorKind::WriteZero,
    ErrorKind::StorageFull,
    ErrorKind::NotSeekable,
    ErrorKind::QuotaExceeded,
    ErrorKind::FileTooLarge,
    ErrorKind::ResourceBusy,
    ErrorKind::ExecutableFileBusy,
    ErrorKind::Deadlock,
    ErrorKind::CrossesDevices,
    ErrorKind::TooManyLinks,
    ErrorKind::InvalidFilename,
    ErrorKind::ArgumentListTooLong,
    ErrorKind::Interrupted,
    ErrorKind::Unsupported,
    ErrorKind::UnexpectedEof,
    ErrorKind::OutOfMemory,
    ErrorKind::InProgress,
    ErrorKind::Other,
    ErrorKind::Uncategorized,
];

/// The number at an index of a text of numbers with blanks between them.
pub(crate) fn number_at(text: &str, index: usize) -> usize {
    number_of(text.split(' ').nth(index).unwrap_or(""))
}

/// How many bytes a device gives or takes at a time, at most; which of its calls stumbles, from 1 on; and by which
/// error, or else by nothing that is given or taken. The calls after it would go on.
#[derive(Clone, Copy)]
pub(crate) struct Manner {
    piece: usize,
    stumbles_at: usize,
    error: Option<ErrorKind>,
}

/// The manner by three numbers from an index on, of which the last is the index of an error.
pub(crate) fn manner_at(text: &str, index: usize) -> Manner {
    Manner {
        piece: number_at(text, index),
        stumbles_at: number_at(text, index.saturating_add(1)),
        error: KINDS.get(number_at(text, index.saturating_add(2))).copied(),
    }
}

/// What the devices of a run share: how many bytes were written, and the calls of writers, a digit each, where calls
/// alike after one another are one.
#[derive(Drop)]
pub(crate) struct Shared {
    written: Cell<usize>,
    pub calls: Cell<u64>,
}

impl Shared {
    pub(crate) fn new() -> Shared {
        Shared {
            written: Cell::new(0),
            calls: Cell::new(0),
        }
    }
}

/// Gives what another reader gives, in its manner.
#[derive(Drop)]
pub(crate) struct Giving<R> {
    reader: R,
    manner: Manner,
    pub calls: usize,
}

impl<R: Read> Read for Giving<R> {
    fn read(&mut self, buffer: &mut [u8]) -> io::Result<usize> {
        self.calls = self.calls.saturating_add(1);
        if self.calls == self.manner.stumbles_at {
            return match self.manner.error {
                Some(kind) => Err(io::Error::from(kind)),
                None => Ok(0),
            };
        }
        let count = buffer.len().min(self.manner.piece);
        self.reader.read(&mut buffer[..count])
    }
}

/// A reader in that manner, of which nothing was read yet.
pub(crate) fn cut<R>(reader: R, manner: Manner) -> Giving<R> {
    Giving {
        reader,
        manner,
        calls: 0,
    }
}

/// Gives what another reader gives, and looks at what it is asked for and when.
#[derive(Drop)]
pub(crate) struct Watched<'a, R> {
    pub reader: R,
    shared: &'a Shared,
    pub given: usize,
    /// As many bytes of what it gave as whole lines have.
    whole: usize,
    pub most_asked: usize,
    /// Whether a read came while other bytes were written than the whole lines have.
    pub is_early: bool,
}

impl<R> Watched<'_, R> {
    pub(crate) fn new(reader: R, shared: &Shared) -> Watched<'_, R> {
        Watched {
            reader,
            shared,
            given: 0,
            whole: 0,
            most_asked: 0,
            is_early: false,
        }
    }
}

impl<R: Read> Read for Watched<'_, R> {
    fn read(&mut self, buffer: &mut [u8]) -> io::Result<usize> {
        self.most_asked = self.most_asked.max(buffer.len());
        self.is_early = self.is_early || self.shared.written.get() != self.whole;
        let count = self.reader.read(buffer)?;
        if let Some(last) = buffer[..count].iter().rposition(|byte| *byte == b'\n') {
            self.whole = self.given.saturating_add(last).saturating_add(1);
        }
        self.given = self.given.saturating_add(count);
        Ok(count)
    }
}

/// Takes what is written. A flush is a call too.
#[derive(Drop)]
pub(crate) struct Taking<'a> {
    pub taken: Vec<u8>,
    manner: Manner,
    shared: &'a Shared,
    /// The digit of a write; that of a flush is one more.
    digit: u64,
    pub calls: usize,
    pub flushes: usize,
}

impl Taking<'_> {
    pub(crate) fn new(alloc: Global, manner: Manner, shared: &Shared, digit: u64) -> Taking<'_> {
        Taking {
            taken: Vec::new(alloc),
            manner,
            shared,
            digit,
            calls: 0,
            flushes: 0,
        }
    }

    /// Counts a call, and notes it by its digit.
    fn note(&mut self, digit: u64) {
        self.calls = self.calls.saturating_add(1);
        let calls = self.shared.calls.get();
        if calls % 10 != digit {
            self.shared
                .calls
                .set(calls.wrapping_mul(10).wrapping_add(digit));
        }
    }
}

impl Write for Taking<'_> {
    fn write(&mut self, bytes: &[u8]) -> io::Result<usize> {
        self.note(self.digit);
        if self.calls == self.manner.stumbles_at {
            return match self.manner.error {
                Some(kind) => Err(io::Error::from(kind)),
                None => Ok(0),
            };
        }
        let count = bytes.len().min(self.manner.piece);
        self.taken.extend_from_slice(&bytes[..count])?;
        let written = self.shared.written.get();
        self.shared.written.set(written.saturating_add(count));
        Ok(count)
    }

    fn flush(&mut self) -> io::Result<()> {
        self.note(self.digit.wrapping_add(1));
        self.flushes = self.flushes.saturating_add(1);
        match self.manner.error {
            Some(kind) if self.calls == self.manner.stumbles_at => Err(io::Error::from(kind)),
            _ => Ok(()),
        }
    }
}
