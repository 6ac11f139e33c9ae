//! The standard library's readers and writers, as readers and writers that remember a failure.
ghost use Rattle.std.specs.Prelude.{◌≡◌, Bool, false};

use crate::stream::{IoFault, Read, Write};
use std::io;
use std::marker::Model;

/// Wraps a reader of the standard library, and remembers whether a read failed. A contract sees the
/// reader, and whether a read of it has failed.
#[derive(Drop)]
pub struct StdReader<R> {
    inner: R,
    is_failed: bool,
}

impl<R> Model for StdReader<R> {
    ghost Value = { R × Bool };

    ghost view = { λ reader. (reader.inner, reader.is_failed) };
}

impl<R> StdReader<R> {
    /// Creates a reader that hasn't failed.
    pub fn new(inner: R) -> StdReader<R>
        ensures { result ≡ (inner, false) }
    {
        StdReader {
            inner,
            is_failed: false,
        }
    }

    /// Returns the standard library's reader.
    pub fn into_inner(self) -> R
        ensures { result ≡ self.0 }
    {
        let StdReader {
            inner,
            is_failed: _,
        } = self;
        inner
    }
}

impl<R: io::Read> Read for StdReader<R> {
    ghost left = { λ reader. R.remaining reader.0 };

    ghost failed = { λ reader. reader.1 };

    fn read(&mut self, buf: &mut [u8]) -> Result<usize, IoFault> {
        if self.is_failed {
            return Err(IoFault);
        }
        match self.inner.read(buf) {
            Ok(count) => Ok(count),
            Err(_) => {
                self.is_failed = true;
                Err(IoFault)
            }
        }
    }

    fn has_failed(&self) -> bool {
        self.is_failed
    }
}

/// Wraps a writer of the standard library, and remembers whether a write failed, or wrote nothing
/// of a slice that wasn't empty. A contract sees the writer, and whether a write of it has failed.
#[derive(Drop)]
pub struct StdWriter<W> {
    inner: W,
    is_failed: bool,
}

impl<W> Model for StdWriter<W> {
    ghost Value = { W × Bool };

    ghost view = { λ writer. (writer.inner, writer.is_failed) };
}

impl<W> StdWriter<W> {
    /// Creates a writer that hasn't failed.
    pub fn new(inner: W) -> StdWriter<W>
        ensures { result ≡ (inner, false) }
    {
        StdWriter {
            inner,
            is_failed: false,
        }
    }

    /// Returns the standard library's writer.
    pub fn into_inner(self) -> W
        ensures { result ≡ self.0 }
    {
        let StdWriter {
            inner,
            is_failed: _,
        } = self;
        inner
    }
}

impl<W: io::Write> Write for StdWriter<W> {
    ghost written = { λ writer. W.contents writer.0 };

    ghost failed = { λ writer. writer.1 };

    fn write(&mut self, buf: &[u8]) -> Result<usize, IoFault> {
        if self.is_failed {
            return Err(IoFault);
        }
        match self.inner.write(buf) {
            Ok(count) if count > 0 || buf.is_empty() => Ok(count),
            _ => {
                self.is_failed = true;
                Err(IoFault)
            }
        }
    }

    fn has_failed(&self) -> bool {
        self.is_failed
    }
}
