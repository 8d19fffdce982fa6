//! Makes a host, and frees it.
ghost use Rattle.std.specs.Prelude.{◌≡◌, ◌≢◌, ◌↔◌, ◌⊎◌, IfSome, IsNone, IsSome, None};
ghost use Rattle.std.specs.Option.{IsSomeAnd};
ghost use Rattle.tcp_c.specs.Answers.{answer_of, done, in_use};
ghost use Rattle.tcp_c.specs.Hosts.{IsNewHost, no_memory};

use crate::answers::{DONE, IN_USE, NO_END};
use crate::host::host_handle::HostHandle;
use crate::host::lodging::Lodging;
use crate::loose::Loose;
use region_heap::{Block, Region, Still};
use region_pool::Pool;
use std::mem::size_of;
use tcp_conn::ConfigError;
use tcp_host::Host;

/// A host without ends and listeners.
fn new_host(pool: &'static Pool, time_wait: u64, stray_interval: u64) -> Lodging
    ensures { IsNewHost result.host time_wait stray_interval }
{
    let mut host = Host::new_in(pool);
    host.set_time_wait(time_wait);
    host.limit_strays(stray_interval);
    Lodging { host }
}

/// The box with the allocator that needs no memory: its region isn't needed any more.
fn settled(lodging: Box<Lodging, Region>) -> Box<Lodging, Still>
    ensures { result.value ≡ lodging.value }
{
    let (lodging, _region) = Loose::of(lodging).settled(Still {});
    lodging.into_box()
}

/// A host in a box, and its tables behind it, all of it in this block.
fn boxed(block: Block, time_wait: u64, stray_interval: u64) -> Option<Box<Lodging, Still>>
    ensures { IfSome result (λ lodging. IsNewHost lodging.value.host time_wait stray_interval) }
{
    let (own, rest) = block.split(size_of::<Lodging>());
    let pool = Pool::leaked(rest)?;
    match Box::new(Region::new(own), new_host(pool, time_wait, stray_interval)) {
        Ok(lodging) => Some(settled(lodging)),
        Err(_) => None,
    }
}

/// Makes a host without ends and listeners, where the handle has none; its tables lie in the block. TIME-WAIT lasts for
/// `time_wait` microseconds from the peer's FIN on where that comes again for a record, and one stray is answered in
/// `stray_interval`; 0: all are. 32 where the handle has one, else 22 where the block is too small. The block is the
/// caller's again at any answer but 0, and after [`tcp_c_host_free`].
#[unsafe(no_mangle)]
pub extern "C" fn tcp_c_host_new(
    handle: &mut HostHandle,
    block: Block,
    time_wait: u64,
    stray_interval: u64,
) -> u32
    ensures in_use { (result ≡ in_use) ↔ IsSome handle.old.held.host }
    ensures others { IsNone handle.old.held.host → (result ≡ done) ⊎ (result ≡ no_memory) }
    ensures made { result ≡ done → IsSomeAnd handle.new.held.host (λ lodging. IsNewHost lodging.host time_wait stray_interval) }
    ensures kept { result ≢ done → handle.new.held.host ≡ handle.old.held.host }
{
    if let Some(held) = handle.take() {
        handle.put(held);
        return IN_USE;
    }
    match boxed(block, time_wait, stray_interval) {
        Some(lodging) => {
            handle.put(lodging);
            DONE
        }
        None => u32::from(ConfigError::NoMemory.number()),
    }
}

/// Frees the host, and each connection that is in it: its block and theirs are the caller's again.
#[unsafe(no_mangle)]
pub extern "C" fn tcp_c_host_free(handle: &mut HostHandle) -> u32
    ensures answer { result ≡ answer_of (λ _. done) handle.old.held.host }
    ensures state { handle.new.held.host ≡ None }
{
    match handle.take() {
        Some(lodging) => {
            drop(lodging);
            DONE
        }
        None => NO_END,
    }
}
