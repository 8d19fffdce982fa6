ghost use Rattle.std.specs.Prelude.{◌≡◌, ◌≤◌, ◌+◌, length};
ghost use Rattle.tcp_halves.specs.Config.{IsGoodConfig};
ghost use Rattle.tcp_conn.specs.State.{IsWithin};
ghost use Rattle.tcp_halves.specs.Sender.{sending_with_runs};
ghost use Rattle.tcp_halves.specs.Receiver.{receiving_with_runs};
ghost use Rattle.tcp_conn.specs.NewEnd.{MakesEnd, MakesEndOf, end_with_runs};
ghost use Rattle.tcp_reasm.specs.Reassembly.{greatest_runs};

use crate::endpoint::Endpoint;
use crate::fault::fault_of;
use crate::pending::Pending;
use crate::phase::{Ending, Phase};
use std::alloc::{Allocator, Global};
use tcp_halves::{Config, ConfigError, DEFAULT_MSS, Link, Peer, Receiver, Sender};
use tcp_reasm::DEFAULT_RUNS;
use tcp_wire::Addr;

impl Endpoint {
    /// A new end: CLOSED, empty, with nothing pending (RFC 9293, 3.3.2). It allocates its two buffers and its two tables
    /// now. It keeps at most [`DEFAULT_RUNS`] runs out of order, and remembers as many of the peer's. An error for a
    /// `config` out of range, or where there is no memory.
    pub fn new(alloc: Global, config: Config) -> Result<Self, ConfigError>
        ensures { MakesEnd config result }
    {
        Self::new_in(alloc, config)
    }

    /// A new end as of [`new`](Endpoint::new) with another number of runs, from 1 to [`MAX_RUNS`](tcp_reasm::MAX_RUNS):
    /// at most as many runs of bytes are kept out of order (RFC 9293, 3.10.7.4), and at most as many runs that the peer
    /// reported are remembered (RFC 2018, 5). A path that reorders makes about one for each five segments that it carries
    /// in the time of its jitter. Each takes 16 bytes.
    pub fn with_runs(alloc: Global, config: Config, runs: usize) -> Result<Self, ConfigError>
        requires least { 1 ≤ runs }
        requires most { runs ≤ greatest_runs }
        ensures { MakesEndOf config runs result }
    {
        Self::with_runs_in(alloc, config, runs)
    }
}

impl<A: Allocator + Copy> Endpoint<A> {
    /// A new end as of [`new`](Endpoint::new), with memory of this allocator.
    pub fn new_in(alloc: A, config: Config) -> Result<Self, ConfigError>
        ensures { MakesEnd config result }
    {
        Self::with_runs_in(alloc, config, DEFAULT_RUNS)
    }

    /// A new end as of [`with_runs`](Endpoint::with_runs), with memory of this allocator.
    pub fn with_runs_in(alloc: A, config: Config, runs: usize) -> Result<Self, ConfigError>
        requires least { 1 ≤ runs }
        requires most { runs ≤ greatest_runs }
        ensures { MakesEndOf config runs result }
    {
        Self::with_runs_of(alloc, alloc, alloc, alloc, config, runs)
    }
}

impl<A: Allocator> Endpoint<A> {
    /// A new end as of [`with_runs`](Endpoint::with_runs), where all that it keeps has an allocator of its own: `send` is
    /// for the bytes that are kept for the peer, `recv` for those kept for the user, `marks` for the table of the runs that
    /// the peer reported, and `held` for that of the runs that are kept out of order. Each is asked once.
    pub fn with_runs_of(
        send: A,
        recv: A,
        marks: A,
        held: A,
        config: Config,
        runs: usize,
    ) -> Result<Self, ConfigError>
        requires least { 1 ≤ runs }
        requires most { runs ≤ greatest_runs }
        ensures { MakesEndOf config runs result }
    {
        let Addr(_in_range) = config.addr;
        if let Some(fault) = fault_of(&config) {
            return Err(fault);
        }
        let Ok(sender) = Sender::with_runs_of(send, marks, &config, runs) else {
            return Err(ConfigError::NoMemory);
        };
        let Ok(receiver) = Receiver::with_runs_of(recv, held, &config, runs) else {
            return Err(ConfigError::NoMemory);
        };
        Ok(Self::closed(config, sender, receiver))
    }

    /// CLOSED, of these two halves. It is a separate function, so that no exit of `with_runs_of` has an end to drop.
    fn closed(config: Config, sender: Sender<A>, receiver: Receiver<A>) -> Self
        requires good { IsGoodConfig config }
        requires sending { sender ≡ sending_with_runs config.send_capacity sender.queue.most_runs }
        requires receiving { receiver ≡ receiving_with_runs config.recv_capacity sender.queue.most_runs }
        requires whole { length receiver.inbox.unread + length receiver.inbox.held ≡ receiver.inbox.capacity }
        ensures value { result ≡ end_with_runs config sender.queue.most_runs }
        ensures within { IsWithin result }
    {
        Endpoint {
            config,
            phase: Phase::Closed,
            ending: Ending::NotEnded,
            closing: false,
            peer: Peer {
                addr: Addr([0, 0, 0, 0]),
                port: 0,
            },
            link: Link {
                peer_mss: DEFAULT_MSS,
                scaling: false,
                peer_shift: 0,
                sack: false,
            },
            sender,
            receiver,
            pending: Pending {
                syn: false,
                ack: false,
                probe: false,
                reset: None,
            },
        }
    }
}
