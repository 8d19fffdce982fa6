use std::fmt;

/// An IPv4 address, its bytes in network order. `Display` writes four decimal numbers joined by dots.
#[derive(Clone, Copy, Debug, Default, PartialEq, Eq, PartialOrd, Ord, Hash)]
pub struct Addr(pub [u8; 4]);

impl fmt::Display for Addr {
    ghost use Rattle.std.specs.Prelude.{Some};
    ghost use Rattle.tcp_numbers.specs.Texts.{addr_text};

    ghost output = { λ addr. Some (addr_text addr.0) };

    fn fmt<W: fmt::Write>(&self, f: &mut fmt::Formatter<W>) -> fmt::Result {
        let [a, b, c, d] = self.0;
        write!(f, "{a}.{b}.{c}.{d}")
    }
}
