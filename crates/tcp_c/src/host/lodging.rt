//! A host as the one type that a handle holds.
use crate::host::lodger::Lodger;
use region_pool::Pool;
use tcp_host::Host;

/// A host of connections. Its tables lie in its block, and each connection in its own.
#[derive(Drop)]
pub struct Lodging {
    /// The host.
    pub host: Host<Lodger, (), &'static Pool>,
}
