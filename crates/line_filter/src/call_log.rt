//! What a device reports about its calls.
ghost use Rattle.std.specs.Prelude.{◌≡◌};
ghost use Rattle.line_filter.specs.CallLogs.{after_work, after_flush, after_failure};

/// A device's calls so far, in one word. A call is a read, a write or a flush.
#[derive(Clone, Copy, Debug, PartialEq, Eq)]
pub enum CallLog {
    /// Nothing is logged.
    Unlogged,
    /// Nothing is logged, since no call ever fails.
    Unfailing,
    /// Each call did its work, and none was a flush.
    Well,
    /// Each call did its work, and the last one alone was a flush.
    Flushed,
    /// The last call failed; each call before it did its work, and none was a flush.
    Failed,
    /// Calls went on after a flush or a failure.
    After,
}

impl CallLog {
    /// Returns the log after one more call, which did its work and was no flush.
    pub fn worked(self) -> CallLog
        ensures { result ≡ after_work self }
    {
        match self {
            CallLog::Unlogged => CallLog::Unlogged,
            CallLog::Unfailing => CallLog::Unfailing,
            CallLog::Well => CallLog::Well,
            CallLog::Flushed | CallLog::Failed | CallLog::After => CallLog::After,
        }
    }

    /// Returns the log after one more call, a flush that did its work.
    pub fn flushed(self) -> CallLog
        ensures { result ≡ after_flush self }
    {
        match self {
            CallLog::Unlogged => CallLog::Unlogged,
            CallLog::Unfailing => CallLog::Unfailing,
            CallLog::Well => CallLog::Flushed,
            CallLog::Flushed | CallLog::Failed | CallLog::After => CallLog::After,
        }
    }

    /// Returns the log after one more call, which failed.
    pub fn failed(self) -> CallLog
        ensures { result ≡ after_failure self }
    {
        match self {
            CallLog::Unlogged => CallLog::Unlogged,
            CallLog::Unfailing | CallLog::Well => CallLog::Failed,
            CallLog::Flushed | CallLog::Failed | CallLog::After => CallLog::After,
        }
    }
}
