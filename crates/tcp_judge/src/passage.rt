use tcp_wire::Addr;

/// A segment that came to an end or that it sent: source, destination and bytes.
#[derive(Debug, Drop)]
pub enum Passage {
    /// The segment came, whoever sent it.
    Came(Addr, Addr, Vec<u8>),
    /// The end sent it.
    Went(Addr, Addr, Vec<u8>),
}
