//! Devices as a run takes them: any reader or writer, or one with the strategy by which it is called.
ghost use Rattle.std.specs.Prelude.{◌≡◌, ◌<◌, length, IfOk, OnErr, OnOk};
ghost use Rattle.std.specs.Io.{WritesAtMost};
ghost use Rattle.std.specs.Io.KnownBytes.{Keeps, WriteAppends};
ghost use Rattle.line_filter.specs.CallLogs.{after_work, after_flush, after_failure};

use super::device::{NotWritten, Reads, Writes};
use super::strategies::Unlogged;
use std::io::{Read, Write};
use std::marker::{Model, PhantomData};

/// What lines are read from: any reader, by [`Unlogged`], or a [`Called`] one, by its strategy.
pub trait Input {
    type Reader: Read + Drop;

    type Strategy: Reads<Self::Reader>;

    // The reader.
    ghost reader: { Self → Self.Reader };

    /// Returns the reader.
    fn into_reader(self) -> Self::Reader
        ensures { result ≡ reader self };
}

/// What text is written to: any writer, by [`Unlogged`], or a [`Called`] one, by its strategy.
pub trait Output {
    type Strategy: Writes<Self>;
}

/// A device with the strategy by which it is called. It is neither `Read` nor `Write`, so a run calls it by that
/// strategy alone.
#[derive(Debug, Drop)]
pub struct Called<D, S> {
    device: D,
    strategy: PhantomData<S>,
}

impl<D, S> Model for Called<D, S> {
    ghost Value = { D };

    ghost view = { λ c. c.device };
}

impl<D, S> Called<D, S> {
    /// Creates it of a device.
    pub fn new(device: D) -> Called<D, S>
        ensures { result ≡ device }
    {
        Called {
            device,
            strategy: PhantomData,
        }
    }

    /// Returns the device, to look at.
    pub fn device(&self) -> &D
        ensures { result.now ≡ self.now }
    {
        &self.device
    }

    /// Returns the device.
    pub fn into_device(self) -> D
        ensures { result ≡ self }
    {
        let Called {
            device,
            strategy: _,
        } = self;
        device
    }
}

impl<R: Read + Drop> Input for R {
    type Reader = R;

    type Strategy = Unlogged;

    ghost reader = { λ r. r };

    fn into_reader(self) -> R {
        self
    }
}

impl<R: Read + Drop, S: Reads<R>> Input for Called<R, S> {
    type Reader = R;

    type Strategy = S;

    ghost reader = { λ c. c };

    fn into_reader(self) -> R {
        self.into_device()
    }
}

/// The strategy for a [`Called`] writer: by its own one.
#[derive(Debug, Drop)]
pub struct Through<T> {
    strategy: PhantomData<T>,
}

impl<W, T: Writes<W>> Writes<Called<W, T>> for Through<T> {
    ghost contents = { T.contents };

    ghost calls = { T.calls };

    fn write(out: &mut Called<W, T>, bytes: &[u8]) -> Result<usize, NotWritten> {
        T::write(&mut out.device, bytes)
    }

    fn flush(out: &mut Called<W, T>) -> Result<(), NotWritten> {
        T::flush(&mut out.device)
    }
}

impl<W: Write> Output for W {
    type Strategy = Unlogged;
}

impl<W, T: Writes<W>> Output for Called<W, T> {
    type Strategy = Through<T>;
}
