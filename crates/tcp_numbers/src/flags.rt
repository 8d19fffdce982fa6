ghost use Rattle.std.specs.Prelude.{◌≡◌, ◌==◌, bit_and, bit_or, map};
ghost use Rattle.tcp_numbers.specs.Flags.{fin, syn, rst, psh, ack, urg, ece, cwr, has};
ghost use Rattle.tcp_numbers.specs.Texts.{flag_table};

use std::fmt;

/// The control bits of a segment (RFC 9293, 3.1). `Display` writes the names of the set ones in the header's order,
/// joined by commas, such as `ACK,SYN`, or `-` where none is set.
#[derive(Clone, Copy, Debug, Default, PartialEq, Eq, Hash)]
pub struct Flags(pub u8);

impl Flags {
    /// Congestion window reduced (RFC 3168, 6.1).
    pub const CWR: Flags = Flags(128);
    /// ECN echo (RFC 3168, 6.1).
    pub const ECE: Flags = Flags(64);
    /// The urgent pointer is significant.
    pub const URG: Flags = Flags(32);
    /// The acknowledgement number is significant.
    pub const ACK: Flags = Flags(16);
    /// Push function.
    pub const PSH: Flags = Flags(8);
    /// Reset the connection.
    pub const RST: Flags = Flags(4);
    /// Synchronize sequence numbers.
    pub const SYN: Flags = Flags(2);
    /// No more data from the sender.
    pub const FIN: Flags = Flags(1);

    /// Whether each bit of `bits` is set.
    pub fn contains(self, bits: Flags) -> bool
        ensures { result ≡ (bit_and self.0 bits.0 == bits.0) }
    {
        self.0 & bits.0 == bits.0
    }

    /// The bits that are set in either.
    pub fn union(self, other: Flags) -> Flags
        ensures { result.0 ≡ bit_or self.0 other.0 }
    {
        Flags(self.0 | other.0)
    }

    /// Whether the congestion window was reduced (RFC 3168, 6.1).
    pub fn is_cwr(self) -> bool
        ensures { result ≡ has cwr self.0 }
    {
        self.0 >> 7 & 1 == 1
    }

    /// Whether congestion is echoed (RFC 3168, 6.1).
    pub fn is_ece(self) -> bool
        ensures { result ≡ has ece self.0 }
    {
        self.0 >> 6 & 1 == 1
    }

    /// Whether the urgent pointer is significant.
    pub fn is_urg(self) -> bool
        ensures { result ≡ has urg self.0 }
    {
        self.0 >> 5 & 1 == 1
    }

    /// Whether the acknowledgement number is significant.
    pub fn is_ack(self) -> bool
        ensures { result ≡ has ack self.0 }
    {
        self.0 >> 4 & 1 == 1
    }

    /// Whether the data has to be pushed to the receiving user.
    pub fn is_psh(self) -> bool
        ensures { result ≡ has psh self.0 }
    {
        self.0 >> 3 & 1 == 1
    }

    /// Whether the connection is reset.
    pub fn is_rst(self) -> bool
        ensures { result ≡ has rst self.0 }
    {
        self.0 >> 2 & 1 == 1
    }

    /// Whether the sequence numbers are synchronized: SEG.SEQ is the initial number.
    pub fn is_syn(self) -> bool
        ensures { result ≡ has syn self.0 }
    {
        self.0 >> 1 & 1 == 1
    }

    /// Whether the sender has no more data.
    pub fn is_fin(self) -> bool
        ensures { result ≡ has fin self.0 }
    {
        self.0 & 1 == 1
    }
}

/// Whether each bit is set, and its name, in the order of the header.
fn flag_table(flags: Flags) -> [(bool, &'static str); 8]
    ensures { map (λ flag. (flag.0, flag.1.now)) result ≡ flag_table flags.0 }
{
    [
        (flags.is_cwr(), "CWR"),
        (flags.is_ece(), "ECE"),
        (flags.is_urg(), "URG"),
        (flags.is_ack(), "ACK"),
        (flags.is_psh(), "PSH"),
        (flags.is_rst(), "RST"),
        (flags.is_syn(), "SYN"),
        (flags.is_fin(), "FIN"),
    ]
}

/// A name, after a comma unless it is the first.
#[derive(Clone, Copy)]
struct Listed {
    is_first: bool,
    name: &'static str,
}

impl fmt::Display for Listed {
    ghost use Rattle.std.specs.Prelude.{Some};
    ghost use Rattle.tcp_numbers.specs.Texts.{listed};

    ghost output = { λ l. Some (listed l.is_first l.name.now) };

    fn fmt<W: fmt::Write>(&self, f: &mut fmt::Formatter<W>) -> fmt::Result {
        if !self.is_first {
            f.write_str(",")?;
        }
        f.write_str(self.name)
    }
}

impl fmt::Display for Flags {
    ghost use Rattle.std.specs.Prelude.{Some};
    ghost use Rattle.tcp_numbers.specs.Texts.{flags_text};

    ghost output = { λ flags. Some (flags_text flags.0) };

    #[tactic(auto, unfolding(crate::specs::Texts::flags_text))]
    fn fmt<W: fmt::Write>(&self, f: &mut fmt::Formatter<W>) -> fmt::Result {
        let mut is_first = true;
        for (is_set, name) in flag_table(*self) {
            if is_set {
                f.write(Listed { is_first, name })?;
                is_first = false;
            }
        }
        if is_first {
            f.write_str("-")?;
        }
        Ok(())
    }
}
