ghost use Rattle.std.specs.Prelude.{◌≡◌, ◌+◌, ◌%◌, ◌^◌, ◌<◌, nat_lt};
ghost use Rattle.tcp_numbers.specs.Position.{distance, is_before, position_of};

/// A sequence number: arithmetic is modulo 2^32, and order is by distance (RFC 9293, 3.4).
#[derive(Clone, Copy, Debug, Default, PartialEq, Eq, Hash)]
pub struct Seq(pub u32);

impl Seq {
    /// The number `count` after this one, modulo 2^32.
    pub fn plus(self, count: u32) -> Seq
        ensures { result.0 ≡ (self.0 + count) % 2 ^ 32 }
    {
        Seq(self.0.wrapping_add(count))
    }

    /// How far this number is ahead of `other`, modulo 2^32.
    pub fn minus(self, other: Seq) -> u32
        ensures { result ≡ distance other.0 self.0 }
    {
        self.0.wrapping_sub(other.0)
    }

    /// Whether `other` is 1 to 2^31 - 1 ahead of this number.
    pub fn before(self, other: Seq) -> bool
        ensures { result ≡ is_before self.0 other.0 }
    {
        let ahead = other.minus(self);
        0 < ahead && ahead < 1 << 31
    }

    /// Whether this number is one of the `size` numbers from `next` on.
    pub fn in_window(self, next: Seq, size: u32) -> bool
        ensures { result ≡ nat_lt (distance next.0 self.0) size }
    {
        self.minus(next) < size
    }

    /// The position that this number is read as in a direction with the initial number `initial` (RFC 9293, 3.4). It is
    /// the nearest to `expected`, from 2^31 behind it up to 2^31 - 1 ahead, and 0 where that is before the first.
    #[tactic(auto, using(crate::proofs::Positions::position_of_ahead, crate::proofs::Positions::position_of_behind))]
    pub fn position(self, initial: Seq, expected: u64) -> u64
        requires { expected < 2 ^ 63 }
        ensures { result ≡ position_of initial.0 expected self.0 }
    {
        let next = initial.plus((expected % (1 << 32)) as u32);
        let ahead = u64::from(self.minus(next));
        if ahead < 1 << 31 {
            expected + ahead
        } else {
            (expected + ahead).saturating_sub(1 << 32)
        }
    }
}
