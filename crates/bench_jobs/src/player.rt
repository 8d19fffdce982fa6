//! A tester: two ends in a world, to which events happen by chance, and the script of these events.
use crate::random::{POOL, Pool, Random};
use crate::words::{push_number, push_words};
use std::alloc::{AllocError, Global};
use tcp_conn::{Config, Timer};
use tcp_replay::{Event, Outcome, Side, World, WorldError};
use tcp_wire::{Addr, Seq};

/// How the segments of a script fare, in thousandths, and what its users do.
#[derive(Clone, Copy)]
pub(crate) struct Mix {
    /// How many bytes a `send` has: from the first to the second.
    pub(crate) least: usize,
    pub(crate) most: usize,
    /// How many segments are lost, come late, come twice and come damaged.
    pub(crate) lost: u32,
    pub(crate) late: u32,
    pub(crate) twice: u32,
    pub(crate) damaged: u32,
    /// How often an old segment comes again, and how often an event is refused.
    pub(crate) again: u32,
    pub(crate) refused: u32,
    /// After how many rounds B's user reads, and after how many A's timers expire; 0 is never.
    pub(crate) reads: usize,
    pub(crate) timers: usize,
}

/// A world and the script of what happened to it.
#[derive(Drop)]
pub(crate) struct Player {
    alloc: Global,
    world: World,
    script: Vec<u8>,
    /// Segments that come late.
    late: Vec<(Side, usize)>,
}

/// The default Config of 10.0.0.`host`, as a script has it, with this initial number.
fn config_of(host: u8, isn: u32) -> Config {
    Config::new(Addr([10, 0, 0, host]), u16::from(host), Seq(isn))
}

/// The world of two ends, and an empty script.
fn new_world(alloc: Global, isn: u32) -> Result<World, WorldError> {
    World::new(alloc, config_of(1, isn), config_of(2, 5000))
}

impl Player {
    /// Two new ends, and the first lines of their script. The script is of version 2 where events are repeated.
    pub(crate) fn new(alloc: Global, isn: u32, repeats: bool) -> Result<Player, AllocError> {
        let Ok(world) = new_world(alloc, isn) else {
            return Err(AllocError);
        };
        let mut player = Player {
            alloc,
            world,
            script: Vec::new(alloc),
            late: Vec::new(alloc),
        };
        player.begin(isn, repeats)?;
        Ok(player)
    }

    /// The script, as far as it goes.
    pub(crate) fn script(&self) -> &[u8] {
        &self.script
    }

    fn begin(&mut self, isn: u32, repeats: bool) -> Result<(), AllocError> {
        if repeats {
            push_words(&mut self.script, b"tcpkit 2\n")?;
        }
        push_words(&mut self.script, b"config A isn ")?;
        push_number(&mut self.script, u64::from(isn))?;
        push_words(&mut self.script, b"\n# the handshake\n")
    }

    /// The words `KIND SIDE`.
    fn note(&mut self, kind: &[u8], side: Side) -> Result<(), AllocError> {
        push_words(&mut self.script, kind)?;
        push_words(&mut self.script, b" ")?;
        push_words(&mut self.script, side.name().as_bytes())
    }

    fn end_line(&mut self) -> Result<(), AllocError> {
        push_words(&mut self.script, b"\n")
    }

    /// One more number of a line.
    fn note_number(&mut self, number: usize) -> Result<(), AllocError> {
        push_words(&mut self.script, b" ")?;
        push_number(&mut self.script, number as u64)
    }

    /// `repeat TIMES `.
    fn note_repeat(&mut self, times: usize) -> Result<(), AllocError> {
        push_words(&mut self.script, b"repeat")?;
        self.note_number(times)?;
        push_words(&mut self.script, b" ")
    }

    /// An event that names nothing but its side.
    fn bare(&mut self, kind: &[u8], side: Side, event: &Event) -> Result<(), AllocError> {
        self.note(kind, side)?;
        self.end_line()?;
        let _ = self.world.step(event);
        Ok(())
    }

    /// The user sends a piece of the pool, this many times in one line.
    fn send(
        &mut self,
        side: Side,
        pool: &Pool,
        at: usize,
        len: usize,
        times: usize,
    ) -> Result<(), AllocError> {
        self.note(b"send", side)?;
        push_words(&mut self.script, b" ")?;
        push_words(&mut self.script, pool.digits(at, len))?;
        self.end_line()?;
        let event = Event::Send(side, pool.piece(at, len).to_vec(self.alloc)?);
        for _ in 0..times {
            let _ = self.world.step(&event);
        }
        Ok(())
    }

    /// The side emits what is due: its number, if anything is.
    fn emit(&mut self, side: Side) -> Result<Option<usize>, AllocError> {
        self.note(b"emit", side)?;
        self.end_line()?;
        let event: Event = Event::Emit(side);
        match self.world.step(&event) {
            Ok(Outcome::Emitted(number)) => Ok(number),
            _ => Ok(None),
        }
    }

    fn deliver(&mut self, from: Side, k: usize) -> Result<(), AllocError> {
        self.note(b"deliver", from)?;
        self.note_number(k)?;
        self.end_line()?;
        let event: Event = Event::Deliver(from, k);
        let _ = self.world.step(&event);
        Ok(())
    }

    fn damage(&mut self, from: Side, k: usize, place: usize, value: u8) -> Result<(), AllocError> {
        self.note(b"damage", from)?;
        self.note_number(k)?;
        self.note_number(place)?;
        self.note_number(usize::from(value))?;
        self.end_line()?;
        let event: Event = Event::Damage(from, k, place, value);
        let _ = self.world.step(&event);
        Ok(())
    }

    fn receive(&mut self, side: Side, room: usize) -> Result<(), AllocError> {
        self.note(b"receive", side)?;
        self.note_number(room)?;
        self.end_line()?;
        let event: Event = Event::Receive(side, room);
        let _ = self.world.step(&event);
        Ok(())
    }

    fn expire(&mut self, side: Side, timer: Timer) -> Result<(), AllocError> {
        self.note(b"timer", side)?;
        push_words(&mut self.script, b" ")?;
        push_words(&mut self.script, timer.name().as_bytes())?;
        self.end_line()?;
        let event: Event = Event::Timer(side, timer);
        let _ = self.world.step(&event);
        Ok(())
    }

    /// What a segment meets on its way.
    fn fare(
        &mut self,
        random: &mut Random,
        mix: Mix,
        from: Side,
        k: usize,
    ) -> Result<(), AllocError> {
        if random.happens(mix.lost) {
            return Ok(());
        }
        if random.happens(mix.late) {
            self.late.push((from, k))?;
            return Ok(());
        }
        if random.happens(mix.damaged) {
            let value = 1 + random.below(255) as u8;
            return self.damage(from, k, random.between(0, 20), value);
        }
        if random.happens(mix.twice) {
            self.deliver(from, k)?;
        }
        self.deliver(from, k)
    }

    /// The side emits at most so many segments, and each goes its way.
    fn carry(
        &mut self,
        random: &mut Random,
        mix: Mix,
        from: Side,
        most: u32,
    ) -> Result<(), AllocError> {
        for _ in 0..most {
            let Some(k) = self.emit(from)? else {
                return Ok(());
            };
            self.fare(random, mix, from, k)?;
        }
        Ok(())
    }

    /// An event that is refused, of which there are several.
    fn refuse(&mut self, random: &mut Random) -> Result<(), AllocError> {
        let count = self.world.count(Side::A);
        match random.below(3) {
            0 => self.deliver(Side::A, count.saturating_add(7)),
            1 => self.damage(Side::A, 0, 3, 0),
            _ => self.bare(b"connect", Side::A, &Event::Connect(Side::A)),
        }
    }

    /// What comes out of turn.
    fn disturb(&mut self, random: &mut Random, mix: Mix) -> Result<(), AllocError> {
        if random.happens(300) {
            if let Some((from, k)) = self.late.pop() {
                self.deliver(from, k)?;
            }
        }
        if random.happens(mix.again) {
            let k = random.between(0, self.world.count(Side::A));
            self.deliver(Side::A, k)?;
        }
        if random.happens(mix.refused) {
            self.refuse(random)?;
        }
        Ok(())
    }

    /// A's timers expire, and what is due then goes out.
    fn recover(&mut self, random: &mut Random, mix: Mix, all: bool) -> Result<(), AllocError> {
        self.expire(Side::A, Timer::Reorder)?;
        if all {
            self.expire(Side::A, Timer::Retransmit)?;
        }
        self.carry(random, mix, Side::A, 6)?;
        self.carry(random, mix, Side::B, 2)
    }

    /// The handshake.
    pub(crate) fn open(&mut self) -> Result<(), AllocError> {
        self.bare(b"listen", Side::B, &Event::Listen(Side::B))?;
        self.bare(b"connect", Side::A, &Event::Connect(Side::A))?;
        self.emit(Side::A)?;
        self.deliver(Side::A, 0)?;
        self.emit(Side::B)?;
        self.deliver(Side::B, 0)?;
        self.emit(Side::A)?;
        self.deliver(Side::A, 1)
    }

    /// One round: A's user writes, what is due goes its way, and B's user reads.
    pub(crate) fn round(
        &mut self,
        random: &mut Random,
        pool: &Pool,
        mix: Mix,
        number: usize,
    ) -> Result<(), AllocError> {
        let len = random.between(mix.least, mix.most.saturating_add(1));
        let at = random.between(0, POOL.saturating_sub(len));
        self.send(Side::A, pool, at, len, 1)?;
        self.carry(random, mix, Side::A, 2)?;
        self.carry(random, mix, Side::B, 1)?;
        if is_turn(number, mix.reads) {
            self.receive(Side::B, 65_536)?;
        }
        if is_turn(number, mix.timers) {
            self.recover(random, mix, is_turn(number, mix.timers.saturating_mul(3)))?;
        }
        self.disturb(random, mix)
    }

    /// A round of lines that are repeated.
    pub(crate) fn round_of_repeats(
        &mut self,
        random: &mut Random,
        pool: &Pool,
        mix: Mix,
    ) -> Result<(), AllocError> {
        let len = random.between(mix.least, mix.most.saturating_add(1));
        let at = random.between(0, POOL.saturating_sub(len));
        let times = random.between(2, 9);
        self.note_repeat(times)?;
        self.send(Side::A, pool, at, len, times)?;
        self.emit_in_turns(Side::A, times)?;
        self.emit_in_turns(Side::B, 1)?;
        self.receive(Side::B, 65_536)
    }

    /// The side emits in one line, and each of these segments is delivered in one line.
    fn emit_in_turns(&mut self, side: Side, times: usize) -> Result<(), AllocError> {
        let before = self.world.count(side);
        self.note_repeat(times)?;
        self.note(b"emit", side)?;
        self.end_line()?;
        let event: Event = Event::Emit(side);
        for _ in 0..times {
            let _ = self.world.step(&event);
        }
        self.note_repeat(times)?;
        self.note(b"deliver", side)?;
        self.note_number(before)?;
        self.end_line()?;
        for turn in 0..times {
            let event: Event = Event::Deliver(side, before.saturating_add(turn));
            let _ = self.world.step(&event);
        }
        Ok(())
    }

    /// Both users close, one after the other.
    pub(crate) fn close(&mut self, random: &mut Random, mix: Mix) -> Result<(), AllocError> {
        self.bare(b"close", Side::A, &Event::Close(Side::A))?;
        self.carry(random, mix, Side::A, 4)?;
        self.carry(random, mix, Side::B, 2)?;
        self.receive(Side::B, 65_536)?;
        self.bare(b"close", Side::B, &Event::Close(Side::B))?;
        self.carry(random, mix, Side::B, 2)?;
        self.carry(random, mix, Side::A, 2)
    }
}

/// Whether something happens in a round that happens after so many.
fn is_turn(number: usize, rounds: usize) -> bool {
    rounds > 0 && number % rounds == rounds - 1
}
