//! Readers and writers that fail, or that take few bytes at a time.
use std::io;
use std::io::{Read, Write};

/// Returns its bytes in pieces.
#[derive(Drop)]
pub(crate) struct Reader<'a> {
    pub(crate) rest: &'a [u8],
    pub(crate) piece: usize,
    pub(crate) calls: usize,
    /// The call that fails, counted from 0.
    pub(crate) fails_at: Option<usize>,
}

impl Read for Reader<'_> {
    fn read(&mut self, buf: &mut [u8]) -> io::Result<usize> {
        let call = self.calls;
        self.calls = call.saturating_add(1);
        if self.fails_at == Some(call) {
            return Err(io::Error::from(io::ErrorKind::Interrupted));
        }
        let count = self.piece.min(self.rest.len()).min(buf.len());
        let (front, rest) = self.rest.split_at(count);
        buf[..count].copy_from_slice(front);
        self.rest = rest;
        Ok(count)
    }
}

/// What becomes of a writer's calls.
#[derive(Clone, Copy, PartialEq)]
pub(crate) enum Trouble {
    Nothing,
    /// The write of this number fails, counted from 0.
    FailsAt(usize),
    /// It writes nothing.
    TakesNothingAt(usize),
    FlushFails,
}

/// Takes its bytes in pieces.
#[derive(Drop)]
pub(crate) struct Writer {
    pub(crate) got: Vec<u8>,
    pub(crate) piece: usize,
    pub(crate) calls: usize,
    pub(crate) trouble: Trouble,
}

impl Write for Writer {
    fn write(&mut self, bytes: &[u8]) -> io::Result<usize> {
        let call = self.calls;
        self.calls = call.saturating_add(1);
        if self.trouble == Trouble::FailsAt(call) {
            return Err(io::Error::from(io::ErrorKind::BrokenPipe));
        }
        if self.trouble == Trouble::TakesNothingAt(call) {
            return Ok(0);
        }
        let count = self.piece.min(bytes.len());
        self.got.extend_from_slice(&bytes[..count])?;
        Ok(count)
    }

    fn flush(&mut self) -> io::Result<()> {
        if self.trouble == Trouble::FlushFails {
            return Err(io::Error::from(io::ErrorKind::BrokenPipe));
        }
        Ok(())
    }
}
