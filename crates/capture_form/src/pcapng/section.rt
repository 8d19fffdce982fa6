ghost use Rattle.std.specs.Prelude.{◌≡◌, ◌++◌, ◌∷◌, [], ◌+◌, ◌≤◌, drop, length, IfOk, OnOk, None, Some, slice_get, true};
ghost use Rattle.capture_form.specs.Blocks.{order_at, is_whole, is_broken};
ghost use Rattle.capture_form.specs.Sections.{start, header_after, interface_after, packet_by, simple_by, dropped_in, told, after, step_at, lost_in, enhanced_in, simple_in, captured_in};
ghost use Rattle.capture_form.specs.SectionView.{block_content, taken_content, step_content};
ghost use Rattle.capture_form.specs.View.{frame_content};
ghost use Rattle.capture_form.specs.Numbers.{number_in};
ghost use Rattle.capture_form.specs.declared.pcapng.section.Taken.TheVariants.{Damaged};
ghost use Rattle.capture_form.specs.declared.pcapng.section.Step.TheVariants.{NoBlock};

use super::block::{Block, ORDER, SECTION, is_broken, is_whole, order_at, read_block};
use super::interface::{Interface, is_resolution, read_interface, read_resolution};
use super::options::{number_of, padded};
use crate::bytes::behind;
use crate::frame::Frame;
use crate::order::Order;
use std::alloc::{AllocError, Allocator, Global};
use std::marker::Model;

/// The interfaces of a section that are read at most.
const MAX_INTERFACES: usize = 4096;

/// What is known of the section that is read. A clause sees it as its order, its interfaces, and whether packets are
/// missing.
#[derive(Debug, Drop)]
pub struct Section<A: Allocator = Global> {
    order: Order,
    interfaces: Vec<Interface, A>,
    is_lossy: bool,
}

impl<A: Allocator> Model for Section<A> {
    ghost use Rattle.capture_form.specs.Sections.{SectionContent};

    ghost Value = { SectionContent };

    ghost view = { λ s. record { order = s.order; interfaces = s.interfaces.items; is_lossy = s.is_lossy } };
}

/// What a block is.
#[derive(Clone, Copy, Debug)]
pub(crate) enum Taken<'a> {
    Damaged,
    /// Not a packet.
    Passed,
    Packet(Frame<'a>),
}

/// What begins the bytes that are read.
#[derive(Clone, Copy, Debug)]
pub enum Step<'a> {
    /// No block: one that is cut short or damaged, or nothing.
    NoBlock,
    /// A block that is no packet; the bytes after it.
    Passed(&'a [u8]),
    /// A packet's frame; the bytes after its block.
    Packet(Frame<'a>, &'a [u8]),
}

/// The interface with this number.
fn interface_at(interfaces: &[Interface], number: u32) -> Option<Interface>
    ensures { result ≡ slice_get interfaces.now number }
{
    interfaces.get(number as usize).copied()
}

/// An enhanced packet's frame.
fn read_enhanced<'a>(order: Order, interface: Interface, body: &'a [u8]) -> Frame<'a>
    requires { 20 + captured_in order body.now ≤ length body.now }
    ensures { frame_content result ≡ enhanced_in order interface body.now }
{
    let high = order.read_u32(&body[4..]);
    let low = order.read_u32(&body[8..]);
    let captured = order.read_u32(&body[12..]) as usize;
    let data = &body[20..];
    Frame {
        link: interface.link,
        time: interface.time_at(u64::from(high) * 0x1_0000_0000 + u64::from(low)),
        wire: order.read_u32(&body[16..]),
        bytes: &data[..captured],
    }
}

/// How many packets were lost before an enhanced packet, as its options tell.
fn read_lost(order: Order, body: &[u8]) -> u64
    requires { 20 ≤ length body.now }
    ensures { result ≡ lost_in order body.now }
{
    let captured = order.read_u32(&body[12..]) as usize;
    number_of(order, 4, behind(body, 20 + padded(captured)))
}

impl<A: Allocator> Section<A> {
    /// Nothing is known yet.
    pub fn new(alloc: A) -> Self
        ensures { result ≡ start }
    {
        Section {
            order: Order::Big,
            interfaces: Vec::new(alloc),
            is_lossy: false,
        }
    }

    /// Whether packets are missing: a block told of drops, or is an obsolete packet block.
    pub fn is_lossy(&self) -> bool
        ensures { result ≡ self.now.is_lossy }
    {
        self.is_lossy
    }

    /// Whether a block begins these bytes, and all of it is there.
    #[tactic(auto, unfolding(crate::specs::Blocks::is_whole))]
    pub fn has_block(&self, bytes: &[u8]) -> bool
        ensures { result ≡ is_whole (order_at self.now.order bytes.now) bytes.now }
    {
        if bytes.len() < 12 {
            return false;
        }
        is_whole(order_at(self.order, bytes), bytes)
    }

    /// Whether none begins them, whatever follows.
    #[tactic(auto, unfolding(crate::specs::Blocks::is_broken))]
    pub fn is_broken(&self, bytes: &[u8]) -> bool
        ensures { result ≡ is_broken (order_at self.now.order bytes.now) bytes.now }
    {
        if bytes.len() < 12 {
            return false;
        }
        is_broken(order_at(self.order, bytes), bytes)
    }

    /// Takes the block that begins a section of this order.
    #[tactic(auto, unfolding(crate::specs::Sections::header_after))]
    fn take_header<'a>(&mut self, order: Order, body: &'a [u8]) -> Taken<'a>
        ensures value { header_after order self.old body.now ≡ taken_content self.new result }
        ensures same { result ≡ Damaged → self.new ≡ self.old }
    {
        if body.len() < 16 || order.read_u32(body) != ORDER || order.read_u16(&body[4..]) != 1 {
            return Taken::Damaged;
        }
        self.order = order;
        self.interfaces.clear();
        Taken::Passed
    }

    /// Takes a block that describes an interface.
    #[tactic(auto, unfolding(crate::specs::Sections::interface_after))]
    fn take_interface<'a>(&mut self, body: &'a [u8]) -> Result<Taken<'a>, AllocError>
        ensures value { IfOk result (λ taken. interface_after self.old body.now ≡ taken_content self.new taken) }
        ensures same { IfOk result (λ taken. taken ≡ Damaged → self.new ≡ self.old) }
    {
        if body.len() < 8 || self.interfaces.len() >= MAX_INTERFACES {
            return Ok(Taken::Damaged);
        }
        if !is_resolution(read_resolution(self.order, &body[8..])) {
            return Ok(Taken::Damaged);
        }
        self.interfaces.push(read_interface(self.order, body))?;
        Ok(Taken::Passed)
    }

    /// A block told of so many packets that are missing.
    fn tell(&mut self, drops: u64)
        ensures { self.new ≡ told self.old drops }
    {
        if drops != 0 {
            self.is_lossy = true;
        }
    }

    /// Takes an enhanced packet.
    #[tactic(auto, unfolding(crate::specs::Sections::packet_by))]
    fn take_enhanced<'a>(&mut self, body: &'a [u8]) -> Taken<'a>
        ensures value { packet_by self.old body.now (slice_get self.old.interfaces (number_in self.old.order 4 body.now)) ≡ taken_content self.new result }
        ensures same { result ≡ Damaged → self.new ≡ self.old }
    {
        if body.len() < 20 {
            return Taken::Damaged;
        }
        let number = self.order.read_u32(body);
        let Some(interface) = interface_at(&self.interfaces, number) else {
            return Taken::Damaged;
        };
        let captured = self.order.read_u32(&body[12..]) as usize;
        if body.len() - 20 < captured {
            return Taken::Damaged;
        }
        self.tell(read_lost(self.order, body));
        Taken::Packet(read_enhanced(self.order, interface, body))
    }

    /// Takes a simple packet, which was seen at the first interface.
    #[tactic(auto, unfolding(crate::specs::Sections::simple_by))]
    fn take_simple<'a>(&self, body: &'a [u8]) -> Taken<'a>
        ensures { simple_by self.now body.now (slice_get self.now.interfaces 0) ≡ taken_content self.now result }
    {
        if body.len() < 4 {
            return Taken::Damaged;
        }
        let Some(interface) = interface_at(&self.interfaces, 0) else {
            return Taken::Damaged;
        };
        let wire = self.order.read_u32(body);
        let captured = interface.simple_len(wire) as usize;
        let data = &body[4..];
        if data.len() < captured {
            return Taken::Damaged;
        }
        Taken::Packet(Frame {
            link: interface.link,
            time: 0,
            wire,
            bytes: &data[..captured],
        })
    }

    /// Takes an interface's statistics.
    fn take_statistics(&mut self, body: &[u8])
        ensures { self.new ≡ told self.old (dropped_in self.old.order body.now) }
    {
        let options = behind(body, 12);
        let interface = number_of(self.order, 5, options);
        let system = number_of(self.order, 7, options);
        self.tell(interface.saturating_add(system));
    }

    /// Takes a block of this order.
    #[tactic(auto, unfolding(crate::specs::Sections::after))]
    fn take<'a>(&mut self, order: Order, block: Block<'a>) -> Result<Taken<'a>, AllocError>
        ensures value { IfOk result (λ taken. after order self.old (block_content block.entry) ≡ taken_content self.new taken) }
        ensures same { IfOk result (λ taken. taken ≡ Damaged → self.new ≡ self.old) }
    {
        if block.kind == SECTION {
            Ok(self.take_header(order, block.body))
        } else if block.kind == 1 {
            self.take_interface(block.body)
        } else if block.kind == 6 {
            Ok(self.take_enhanced(block.body))
        } else if block.kind == 3 {
            Ok(self.take_simple(block.body))
        } else {
            if block.kind == 5 {
                self.take_statistics(block.body);
            } else if block.kind == 2 {
                // An obsolete packet block isn't read, and what it holds may have come.
                self.tell(1);
            }
            Ok(Taken::Passed)
        }
    }

    /// Takes the block that begins these bytes.
    #[tactic(auto, unfolding(crate::specs::Sections::step_at, crate::specs::Blocks::block_at, crate::specs::Blocks::is_whole))]
    pub fn step<'a>(&mut self, bytes: &'a [u8]) -> Result<Step<'a>, AllocError>
        ensures value { IfOk result (λ step. step_at self.old bytes.now ≡ step_content self.new step) }
        ensures same { IfOk result (λ step. step ≡ NoBlock → self.new ≡ self.old) }
    {
        if bytes.len() < 12 {
            return Ok(Step::NoBlock);
        }
        let order = order_at(self.order, bytes);
        let Some((block, rest)) = read_block(order, bytes) else {
            return Ok(Step::NoBlock);
        };
        match self.take(order, block)? {
            Taken::Damaged => Ok(Step::NoBlock),
            Taken::Passed => Ok(Step::Passed(rest)),
            Taken::Packet(frame) => Ok(Step::Packet(frame, rest)),
        }
    }
}
