//! Streams that pass on little at a time, and that fail when asked to.

use std::io;
use std::io::{ErrorKind, Read, Write};

/// No call fails.
pub const NEVER: usize = usize::MAX;

/// How many bytes a call passes on at most.
const PIECE: usize = 10;

/// A stream that passes on some bytes at a time, and fails at one call and each later one.
#[derive(Drop)]
pub struct FailingStream<S: Drop> {
    stream: S,
    calls_left: usize,
}

impl<S: Drop> FailingStream<S> {
    /// A stream that fails at its call `fails_at`, counted from 0.
    pub fn new(stream: S, fails_at: usize) -> Self {
        FailingStream {
            stream,
            calls_left: fails_at,
        }
    }

    pub fn into_inner(self) -> S {
        self.stream
    }

    /// Counts a call, which fails where it is its turn.
    fn call(&mut self) -> io::Result<()> {
        if self.calls_left == 0 {
            return Err(io::Error::from(ErrorKind::Other));
        }
        self.calls_left -= 1;
        Ok(())
    }
}

impl<R: Read + Drop> Read for FailingStream<R> {
    fn read(&mut self, buf: &mut [u8]) -> io::Result<usize> {
        self.call()?;
        let count = buf.len().min(PIECE);
        self.stream.read(&mut buf[..count])
    }
}

impl<W: Write + Drop> Write for FailingStream<W> {
    fn write(&mut self, buf: &[u8]) -> io::Result<usize> {
        self.call()?;
        let count = buf.len().min(PIECE);
        self.stream.write(&buf[..count])
    }

    fn flush(&mut self) -> io::Result<()> {
        self.call()?;
        self.stream.flush()
    }
}
