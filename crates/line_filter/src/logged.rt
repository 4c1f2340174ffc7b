//! Devices that log what became of their calls. Nothing outside this file can change that log.
ghost use Rattle.std.specs.Prelude.{◌≡◌, ◌<◌, length, IfOk, OnErr, OnOk};
ghost use Rattle.std.specs.Io.{ReadsAtMost, WritesAtMost};
ghost use Rattle.std.specs.Io.KnownBytes.{Keeps, ReadConsumes, WriteAppends};
ghost use Rattle.line_filter.specs.CallLogs.{after_work, after_flush, after_failure};
ghost use Rattle.line_filter.specs.declared.call_log.CallLog.{CallLog};

use super::call_log::CallLog;
use std::io;
use std::io::{Read, Write};
use std::marker::Model;

/// A device, and what became of its calls. A call is added where the device is called, and none can be taken back. To
/// use the device afterwards, pass it by reference.
#[derive(Debug, Drop)]
pub struct Logged<D> {
    device: D,
    calls: CallLog,
}

impl<D> Model for Logged<D> {
    ghost use Rattle.line_filter.specs.Logged.{LoggedDevice};

    ghost Value = { LoggedDevice D };

    ghost view = { λ r. record { device = r.device; calls = r.calls } };
}

impl<D> Logged<D> {
    /// Creates a record of a device that has not been called yet.
    pub fn new(device: D) -> Logged<D>
        ensures { result ≡ record { device = device; calls = CallLog.Well } }
    {
        Logged {
            device,
            calls: CallLog::Well,
        }
    }

    /// Returns what became of its calls so far.
    pub fn calls(&self) -> CallLog
        ensures { result ≡ self.now.calls }
    {
        self.calls
    }
}

impl<R: Read> Read for Logged<R> {
    ghost remaining = { λ r. R.remaining r.device };

    fn read(&mut self, bytes: &mut [u8]) -> io::Result<usize>
        ensures bound { ReadsAtMost result bytes.new }
        ensures bytes { ReadConsumes (R.remaining self.old.device) (R.remaining self.new.device) result bytes.new }
        ensures worked { OnOk result (self.new.calls ≡ after_work self.old.calls) }
        ensures failed { OnErr result (self.new.calls ≡ after_failure self.old.calls) }
    {
        let answer = self.device.read(bytes);
        self.calls = match &answer {
            Ok(_) => self.calls.worked(),
            Err(_) => self.calls.failed(),
        };
        answer
    }
}

impl<W: Write> Write for Logged<W> {
    ghost contents = { λ w. W.contents w.device };

    fn write(&mut self, bytes: &[u8]) -> io::Result<usize>
        ensures bound { WritesAtMost result bytes.now }
        ensures bytes { WriteAppends (W.contents self.old.device) (W.contents self.new.device) result bytes.now }
        ensures worked { IfOk result (λ count. 0 < count → self.new.calls ≡ after_work self.old.calls) }
        ensures none { IfOk result (λ count. count ≡ 0 → 0 < length bytes.now
            → self.new.calls ≡ after_failure self.old.calls) }
        ensures failed { OnErr result (self.new.calls ≡ after_failure self.old.calls) }
    {
        let answer = self.device.write(bytes);
        self.calls = match &answer {
            Ok(0) if !bytes.is_empty() => self.calls.failed(),
            Ok(_) => self.calls.worked(),
            Err(_) => self.calls.failed(),
        };
        answer
    }

    fn flush(&mut self) -> io::Result<()>
        ensures bytes { Keeps (W.contents self.old.device) (W.contents self.new.device) }
        ensures flushed { OnOk result (self.new.calls ≡ after_flush self.old.calls) }
        ensures failed { OnErr result (self.new.calls ≡ after_failure self.old.calls) }
    {
        let answer = self.device.flush();
        self.calls = match &answer {
            Ok(()) => self.calls.flushed(),
            Err(_) => self.calls.failed(),
        };
        answer
    }
}
