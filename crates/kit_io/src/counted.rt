//! Readers and writers with counts that contracts alone see.
ghost use Rattle.std.specs.Prelude.{◌≡◌, ◌+◌, ℕ, List, Option, length, OnOk, OnErr};
ghost use Rattle.std.specs.Io.{ReadsAtMost, WritesAtMost};
ghost use Rattle.std.specs.Io.KnownBytes.{ReadConsumes, WriteAppends, Keeps};
ghost use Rattle.kit_io.specs.Devices.{read_failures, read_ends, write_failures, flush_failures, unflushed_after, device_of, failures_of, ends_of, unflushed_of};

use crate::tally::Tally;
use std::io;
use std::io::{Read, Write};
use std::marker::Model;

/// What a program reads from. Contracts see the bytes that are left, where they are known, how many of the calls
/// failed, and how many met the end: such a read returns none into a buffer that isn't empty.
pub trait Input {
    ghost remaining: { Self → Option (List ℕ) };

    ghost failures: { Self → ℕ };

    ghost ends: { Self → ℕ };

    /// Reads bytes into the front of `buf`, and returns how many.
    fn read(&mut self, buf: &mut [u8]) -> io::Result<usize>
        ensures bound { ReadsAtMost result buf.new }
        ensures bytes { ReadConsumes (remaining self.old) (remaining self.new) result buf.new }
        ensures failures { failures self.new ≡ failures self.old + read_failures result }
        ensures ends { ends self.new ≡ ends self.old + read_ends result (length buf.new) };
}

/// What a program writes to. Contracts see the bytes that it has, where they are known, how many of the calls failed,
/// and how many writes came after the last flush that didn't fail. A write of none of a slice that isn't empty failed
/// too.
pub trait Output {
    ghost contents: { Self → Option (List ℕ) };

    ghost failures: { Self → ℕ };

    ghost unflushed: { Self → ℕ };

    /// Writes a prefix of `bytes`, and returns its length.
    fn write(&mut self, bytes: &[u8]) -> io::Result<usize>
        ensures bound { WritesAtMost result bytes.now }
        ensures bytes { WriteAppends (contents self.old) (contents self.new) result bytes.now }
        ensures failures { failures self.new ≡ failures self.old + write_failures result (length bytes.now) }
        ensures unflushed { unflushed self.new ≡ unflushed self.old + 1 };

    /// Writes what was buffered.
    fn flush(&mut self) -> io::Result<()>
        ensures bytes { Keeps (contents self.old) (contents self.new) }
        ensures failures { failures self.new ≡ failures self.old + flush_failures result }
        ensures unflushed { unflushed self.new ≡ unflushed_after result (unflushed self.old) };
}

/// A reader or a writer of `std`, with its counts.
#[derive(Drop)]
pub struct Counted<T: Drop> {
    device: T,
    failures: Tally,
    ends: Tally,
    unflushed: Tally,
}

impl<T: Drop> Model for Counted<T> {
    ghost use Rattle.std.specs.Prelude.{ℕ};

    ghost Value = { T × ℕ × ℕ × ℕ };

    ghost view = { λ c. (c.device, c.failures.count, c.ends.count, c.unflushed.count) };
}

impl<T: Drop> Counted<T> {
    /// The device with all counts at 0.
    pub fn new(device: T) -> Counted<T>
        ensures device { device_of result ≡ device }
        ensures failures { failures_of result ≡ 0 }
        ensures ends { ends_of result ≡ 0 }
        ensures unflushed { unflushed_of result ≡ 0 }
    {
        Counted {
            device,
            failures: Tally::new(),
            ends: Tally::new(),
            unflushed: Tally::new(),
        }
    }

    /// The reader or writer without its counts.
    pub fn into_inner(self) -> T
        ensures { result ≡ device_of self }
    {
        self.device
    }
}

impl<T: Read + Drop> Input for Counted<T> {
    ghost remaining = { λ c. T.Read.remaining (device_of c) };

    ghost failures = { failures_of };

    ghost ends = { ends_of };

    fn read(&mut self, buf: &mut [u8]) -> io::Result<usize> {
        let answer = self.device.read(buf);
        match answer {
            Ok(0) if !buf.is_empty() => self.ends.tick(),
            Ok(_) => {}
            Err(_) => self.failures.tick(),
        }
        answer
    }
}

impl<T: Write + Drop> Output for Counted<T> {
    ghost contents = { λ c. T.Write.contents (device_of c) };

    ghost failures = { failures_of };

    ghost unflushed = { unflushed_of };

    fn write(&mut self, bytes: &[u8]) -> io::Result<usize> {
        let answer = self.device.write(bytes);
        self.unflushed.tick();
        match answer {
            Ok(0) if !bytes.is_empty() => self.failures.tick(),
            Ok(_) => {}
            Err(_) => self.failures.tick(),
        }
        answer
    }

    fn flush(&mut self) -> io::Result<()> {
        let answer = self.device.flush();
        if answer.is_err() {
            self.failures.tick();
        } else {
            self.unflushed = Tally::new();
        }
        answer
    }
}
