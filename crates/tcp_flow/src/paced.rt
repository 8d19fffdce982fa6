//! What a flow asks of an end beside what a driver does.
ghost use Rattle.std.specs.Prelude.{◌≡◌, ◌≤◌, ◌<◌, ℕ, IfSome, Option, option_map};
ghost use Rattle.tcp_congestion.specs.Sizes.{max_segment};

use tcp_driver::Core;

/// An end that a congestion window bounds.
pub trait Paced: Core {
    /// SMSS, once both SYNs have agreed on it.
    ghost smss_of: { Self → Option ℕ };

    ghost numbers_of: { Self.Train → ℕ };

    /// SMSS, in bytes: of a full segment, once both SYNs have agreed on it (RFC 5681, 2).
    fn smss(&self) -> Option<u64>
        ensures value { result ≡ smss_of self.now }
        ensures least { IfSome result (λ smss. 0 < smss) }
        ensures most { IfSome result (λ smss. smss ≤ max_segment) };

    /// How many numbers segments take that have gone out as one.
    fn numbers(train: &Self::Train) -> u64
        ensures { result ≡ numbers_of train.now };

    /// They are as many as the driver is told of.
    ghost counts: { (s : Self) (window most room : ℕ) → option_map (λ row. row.count) (Self.machine.row s window most room) ≡ option_map numbers_of (Self.train_answer s window most room) };
}
