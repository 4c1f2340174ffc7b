//! How far a run over rows has come, said at a terminal.
use crate::recent_rows::{RecentRows, line_feeds};
use crate::reports::says_why;
use odata_filter::command_line::RunRequest;
use std::cell::Cell;
use std::io::{IsTerminal, Write};
use std::time::Instant;

/// After so many milliseconds a run says how far it has come.
const QUIET: u128 = 2_000;

/// The least time between two such lines, in milliseconds.
const BETWEEN: u128 = 200;

/// How far a run has come. Its line is rewritten where it stands, and is taken away before another.
#[derive(Drop)]
pub struct Progress<'r> {
    pub rt: &'r HostRuntime,
    /// When the run began, if its progress is said: standard error is a terminal, and standard output is none.
    begun: Option<Instant>,
    /// Whether rows are lines, which can be counted as they come.
    has_lines: bool,
    rows: Cell<u64>,
    bytes: Cell<u64>,
    /// When the last line was written, in milliseconds after the beginning; 0 before the first.
    last: Cell<u128>,
    is_shown: Cell<bool>,
    /// What it has read last, if a person hears of rows at fault.
    pub recent: RecentRows,
}

impl<'r> Progress<'r> {
    /// Of a run that begins.
    pub fn begin(rt: &'r HostRuntime, request: &RunRequest<'_>) -> Progress<'r> {
        let is_said = rt.stderr().is_terminal() && !rt.stdout().is_terminal();
        Progress {
            rt,
            begun: if is_said { Instant::now(rt).ok() } else { None },
            has_lines: !request.plan.collection,
            rows: Cell::new(0),
            bytes: Cell::new(0),
            last: Cell::new(0),
            is_shown: Cell::new(false),
            recent: RecentRows::new(rt.alloc(), says_why(rt, request)),
        }
    }

    /// Writes the line of a run that has lasted so many milliseconds.
    fn write(&self, lasted: u128) {
        let (rows, bytes) = (self.rows.get(), self.bytes.get());
        let megabytes = bytes / 1_000_000;
        let rate = u128::from(bytes) / lasted.max(1) / 1_000;
        let _ = if self.has_lines {
            write!(
                self.rt.stderr(),
                "\r{rows} rows, {megabytes} MB, {rate} MB/s\x1b[K"
            )
        } else {
            write!(self.rt.stderr(), "\r{megabytes} MB, {rate} MB/s\x1b[K")
        };
        self.last.set(lasted);
        self.is_shown.set(true);
    }

    /// Takes note of bytes that were read, since the run began.
    fn note(&self, begun: Instant, bytes: &[u8]) {
        self.rows
            .set(self.rows.get().saturating_add(line_feeds(bytes)));
        self.bytes
            .set(self.bytes.get().saturating_add(bytes.len() as u64));
        let Ok(lasted) = begun.elapsed(self.rt) else {
            return;
        };
        let lasted = lasted.as_millis();
        if QUIET <= lasted && BETWEEN <= lasted.saturating_sub(self.last.get()) {
            self.write(lasted);
        }
    }

    /// Takes note of bytes that were read.
    pub fn read(&self, bytes: &[u8]) {
        if let Some(begun) = self.begun {
            self.note(begun, bytes);
        }
    }

    /// Takes the line away.
    pub fn clear(&self) {
        if self.is_shown.replace(false) {
            let _ = write!(self.rt.stderr(), "\r\x1b[K");
        }
    }
}
