//! The streams of a run.
use crate::line_prefix::LinePrefix;
use crate::progress::Progress;
use crate::recent_rows::RecentRows;
use odata_filter::PartReader;
use std::fs::File;
use std::io;
use std::io::{Cursor, Read, Stderr, Stdin, Write};

/// Where rows come from.
#[derive(Drop)]
pub enum Source {
    File(File),
    Part(PartReader<File>),
    Stdin(Stdin),
    Held(Cursor<Vec<u8>>),
}

impl Read for Source {
    fn read(&mut self, bytes: &mut [u8]) -> io::Result<usize> {
        match self {
            Source::File(file) => file.read(bytes),
            Source::Part(part) => part.read(bytes),
            Source::Stdin(stdin) => stdin.read(bytes),
            Source::Held(held) => held.read(bytes),
        }
    }
}

/// Rows that are read, and how far that has come. A run over any source is the same code, which is in memory once.
#[derive(Drop)]
pub struct Rows<'p, 'r> {
    pub source: Source,
    pub progress: &'p Progress<'r>,
}

impl Read for Rows<'_, '_> {
    fn read(&mut self, bytes: &mut [u8]) -> io::Result<usize> {
        let count = self.source.read(bytes)?;
        let read = bytes.get(..count).unwrap_or(&[]);
        self.progress.recent.note(read);
        if !matches!(&self.source, Source::Held(_)) {
            self.progress.read(read);
        }
        Ok(count)
    }
}

/// Rows of which one line is looked for, and what was read of them last.
#[derive(Drop)]
pub struct NotedRows<'p> {
    pub source: Source,
    pub recent: &'p RecentRows,
}

impl Read for NotedRows<'_> {
    fn read(&mut self, bytes: &mut [u8]) -> io::Result<usize> {
        let count = self.source.read(bytes)?;
        self.recent.note(bytes.get(..count).unwrap_or(&[]));
        Ok(count)
    }
}

/// Standard error, on which the line of the progress is taken away before another.
#[derive(Drop)]
pub struct Faults<'p, 'r, 'n> {
    pub progress: &'p Progress<'r>,
    pub written: Written<'n, Stderr>,
}

impl Write for Faults<'_, '_, '_> {
    fn write(&mut self, bytes: &[u8]) -> io::Result<usize> {
        self.progress.clear();
        self.written.write(bytes)
    }

    fn flush(&mut self) -> io::Result<()> {
        self.written.flush()
    }
}

/// A stream that is written, or none: what a run writes is dropped then, since it is reported in another form.
#[derive(Drop)]
pub enum Written<'n, W> {
    Stream(W),
    /// With that before the first bytes.
    After(LinePrefix<'n>, W),
    Nothing,
}

impl<W: Write> Written<'_, W> {
    /// Writes what stands before the first bytes, once.
    fn write_prefix(&mut self) -> io::Result<()> {
        let before = match self {
            Written::After(prefix, _) => std::mem::replace(prefix, LinePrefix::Nothing),
            _ => return Ok(()),
        };
        match self {
            Written::After(_, stream) => write!(stream, "{before}"),
            _ => Ok(()),
        }
    }
}

impl<W: Write> Write for Written<'_, W> {
    fn write(&mut self, bytes: &[u8]) -> io::Result<usize> {
        self.write_prefix()?;
        match self {
            Written::Stream(stream) | Written::After(_, stream) => stream.write(bytes),
            Written::Nothing => Ok(bytes.len()),
        }
    }

    fn flush(&mut self) -> io::Result<()> {
        match self {
            Written::Stream(stream) | Written::After(_, stream) => stream.flush(),
            Written::Nothing => Ok(()),
        }
    }
}
