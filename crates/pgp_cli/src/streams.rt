//! Streams that note whether one of their calls failed, how far they were read, and whether what was written was passed on.
ghost use Rattle.std.specs.Prelude.{◌≡◌, false};

use pgp_core::{Bounds, Sink, Source};
use std::io;
use std::io::{Read, Write};

/// A reader that counts what it gave.
pub trait Counted: Source {
    /// How many line feeds and how many bytes reads gave.
    fn given(&self) -> Bounds;
}

/// A stream, whether one of its calls failed, how many lines and bytes it gave, and whether it was flushed behind its last write.
#[derive(Drop)]
pub struct WatchedStream<S: Drop> {
    stream: S,
    failed: bool,
    given: Bounds,
    flushed: bool,
}

impl<S: Drop> WatchedStream<S> {
    /// A stream of which no call has failed, and that wasn't flushed yet.
    pub fn new(stream: S) -> Self
        ensures { (result.stream ≡ stream) × (result.failed ≡ false) }
    {
        WatchedStream {
            stream,
            failed: false,
            given: Bounds { lines: 0, bytes: 0 },
            flushed: false,
        }
    }

    pub fn into_inner(self) -> S
        ensures { result ≡ self.stream }
    {
        self.stream
    }
}

impl<R: Read + Drop> Source for WatchedStream<R> {
    ghost state = { λ watched. record { remaining = R.remaining watched.stream; failed = watched.failed } };

    fn read(&mut self, buf: &mut [u8]) -> io::Result<usize> {
        let result = self.stream.read(buf);
        match result {
            Ok(count) => self.given = with_more(self.given, &buf[..count]),
            Err(_) => self.failed = true,
        }
        result
    }

    fn has_failed(&self) -> bool {
        self.failed
    }
}

impl<R: Read + Drop> Counted for WatchedStream<R> {
    fn given(&self) -> Bounds {
        self.given
    }
}

/// How many lines and bytes there are with these bytes.
fn with_more(given: Bounds, bytes: &[u8]) -> Bounds {
    // As many bytes as a byte can count: so a processor compares many at once.
    let lines = bytes.chunks(255).fold(given.lines, |lines, piece| {
        lines.saturating_add(u64::from(line_feeds(piece)))
    });
    Bounds {
        lines,
        bytes: given.bytes.saturating_add(bytes.len() as u64),
    }
}

/// How many of these bytes, at most 255, are line feeds.
fn line_feeds(piece: &[u8]) -> u8 {
    piece.iter().fold(0, |feeds, byte| {
        feeds.wrapping_add(u8::from(*byte == b'\n'))
    })
}

impl<W: Write + Drop> Sink for WatchedStream<W> {
    ghost state = { λ watched. record { contents = W.contents watched.stream; failed = watched.failed; passed_on = watched.flushed } };

    fn write(&mut self, buf: &[u8]) -> io::Result<usize> {
        self.flushed = false;
        let result = self.stream.write(buf);
        let took_nothing = match result {
            Ok(0) => !buf.is_empty(),
            Ok(_) => false,
            Err(_) => true,
        };
        self.failed = self.failed || took_nothing;
        result
    }

    fn flush(&mut self) -> io::Result<()> {
        let result = self.stream.flush();
        self.flushed = result.is_ok();
        self.failed = self.failed || result.is_err();
        result
    }
}
