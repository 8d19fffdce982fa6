//! What a recovery asks of an end beside what a connection does.
ghost use Rattle.std.specs.Prelude.{◌≡◌, ℕ, Option, option_map};

use tcp_connection::Deferring;

/// An end whose peer reports by blocks what it holds (RFC 2018), so that a recovery can find what is lost.
pub trait Reporting: Deferring {
    ghost use Rattle.tcp_repair.specs.Reports.{Reports};

    /// What is known of it, as functions of its state.
    ghost reports: { Reports Self };

    ghost start_of: { Self.Train → ℕ };

    /// The first numbers from the position `at` on that are in flight and that no block has reported, as the position of the first
    /// and that behind the last of their run (RFC 2018, 4).
    fn unmarked(&self, at: u64) -> Option<(u64, u64)>
        ensures { result ≡ reports.unmarked self.now at };

    /// Whether both SYNs agreed on blocks (RFC 2018, 2).
    fn uses_blocks(&self) -> bool
        ensures { result ≡ reports.agreed self.now };

    /// SND.WND, the peer's window, in bytes (RFC 9293, 3.3.1).
    fn peer_window(&self) -> u64
        ensures { result ≡ reports.peer_window self.now };

    /// The position of the first number of segments that have gone out as one.
    fn start(train: &Self::Train) -> u64
        ensures { result ≡ start_of train.now };

    /// It is where the driver is told that they begin.
    ghost starts: { (s : Self) (window most room : ℕ) → option_map (λ row. row.start) (Self.machine.row s window most room) ≡ option_map start_of (Self.train_answer s window most room) };
}
