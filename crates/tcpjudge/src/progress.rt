//! How far a large capture is read, on a terminal.
use capture_ends::Watcher;

/// After so many packets a line is written anew.
const STEP: usize = 1 << 18;

/// Where it is told, if it is.
#[derive(Clone, Copy)]
pub(crate) struct Progress<'a, R: Eprint> {
    rt: &'a R,
    is_shown: bool,
}

impl<'a, R: Eprint> Progress<'a, R> {
    pub(crate) fn new(rt: &'a R, is_shown: bool) -> Self {
        Progress { rt, is_shown }
    }

    /// All are: what was written is taken away.
    pub(crate) fn end(&self, packets: usize) {
        if self.is_shown && packets >= STEP {
            let _ = eprint!(self.rt; "\r\x1b[K");
        }
    }
}

impl<'a, R: Eprint> Watcher for Progress<'a, R> {
    fn tell(&self, packets: usize) {
        if self.is_shown && packets % STEP == 0 {
            let _ = eprint!(self.rt; "\rtcpjudge: packet {packets}");
        }
    }
}
