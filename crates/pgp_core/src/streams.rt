//! What a script is read from and its answers are written to: readers and writers that tell whether a call failed. The contracts
//! of `std::io` say nothing of that. Any error is a fault, an interrupted call too: who wants such a call repeated wraps the
//! stream.
ghost use Rattle.std.specs.Prelude.{◌≡◌, ◌<◌, true, IfOk, OnOk, OnErr, length};
ghost use Rattle.std.specs.Io.{ReadsAtMost, WritesAtMost};
ghost use Rattle.std.specs.Io.KnownBytes.{Keeps, ReadConsumes, WriteAppends};
ghost use Rattle.pgp_core.specs.Streams.{SinkState, SourceState};

use std::io;
use std::io::{Read, Write};

/// A reader that tells whether a read of it failed.
pub trait Source {
    // The bytes that reads will give from here on, and whether a read failed.
    ghost state: { Self → SourceState };

    /// Reads into `buf` and says how many bytes it gave: none only at the end, or with no room.
    fn read(&mut self, buf: &mut [u8]) -> io::Result<usize>
        ensures bound { ReadsAtMost result buf.new }
        ensures bytes { ReadConsumes (state self.old).remaining (state self.new).remaining result buf.new }
        ensures kept { OnOk result ((state self.new).failed ≡ (state self.old).failed) }
        ensures failed { OnErr result ((state self.new).failed ≡ true) };

    /// Whether a read of it failed.
    fn has_failed(&self) -> bool
        ensures { result ≡ (state self.now).failed };
}

/// A writer that tells whether a call of it failed.
pub trait Sink {
    // The bytes that the writer holds, whether a call of it failed, and whether all bytes were passed on.
    ghost state: { Self → SinkState };

    /// Writes a first part of `buf`, and says how many bytes it took.
    fn write(&mut self, buf: &[u8]) -> io::Result<usize>
        ensures bound { WritesAtMost result buf.now }
        ensures bytes { WriteAppends (state self.old).contents (state self.new).contents result buf.now }
        ensures stuck { IfOk result (λ n. n ≡ 0 → 0 < length buf.now → (state self.new).failed ≡ true) }
        ensures kept { IfOk result (λ n. 0 < n → (state self.new).failed ≡ (state self.old).failed) }
        ensures failed { OnErr result ((state self.new).failed ≡ true) };

    /// Passes on what was written.
    fn flush(&mut self) -> io::Result<()>
        ensures bytes { Keeps (state self.old).contents (state self.new).contents }
        ensures kept { OnOk result ((state self.new).failed ≡ (state self.old).failed) }
        ensures failed { OnErr result ((state self.new).failed ≡ true) }
        ensures passed_on { OnOk result ((state self.new).passed_on ≡ true) };
}
