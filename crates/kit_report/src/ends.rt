//! The sequence numbers and timers of both ends after a part of a script.
ghost use Rattle.std.specs.Prelude.{◌≡◌, ◌++◌, map, take, IfOk, IfErr, OnOk, string_bytes};
ghost use Rattle.tcp_wire.specs.Position.{number};
ghost use Rattle.tcp_replay.specs.World.{party_of, HasGoodConfigs};
ghost use Rattle.kit_script.specs.Script.{turn_content, script_content, CanBegin};
ghost use Rattle.kit_report.specs.Ends.{send_text, receive_text, timers_text, numbers_line, numbers_lines, numbers_text};
ghost use Rattle.kit_report.specs.Faults.{HasReportFault};
ghost use Rattle.kit_report.specs.Report.{world_after_turns};

use crate::error::ReportError;
use crate::names::yes_or_no;
use crate::outcomes::other;
use crate::report::new_world;
use crate::shown::apply_all;
use kit_script::{Script, Turn};
use std::alloc::{AllocError, Allocator};
use tcp_conn::Endpoint;
use tcp_replay::{Side, World};
use tcp_wire::Seq;

/// The sequence number of a position of a direction (RFC 9293, 3.4).
fn number_of(initial: Seq, position: u64) -> Seq
    ensures { result.0 ≡ number initial.0 position }
{
    initial.plus((position % (1 << 32)) as u32)
}

/// Appends SND.UNA, SND.NXT and the edge of the peer's window.
#[tactic(auto, unfolding(crate::specs::Ends::send_text))]
fn push_send_space<A: Allocator>(text: &mut String<A>, end: &Endpoint<A>) -> Result<(), AllocError>
    ensures { OnOk result (string_bytes text.new ≡ string_bytes text.old ++ send_text end.now) }
{
    if end.snd_nxt() == 0 {
        return text.push_str(" una - nxt - edge -");
    }
    let initial = end.config().isn;
    let una = number_of(initial, end.snd_una());
    let nxt = number_of(initial, end.snd_nxt());
    let (_, peer) = end.windows();
    let edge = una.plus(peer);
    write!(text, " una {} nxt {} edge {}", una.0, nxt.0, edge.0)
}

/// Appends RCV.NXT and the edge of this end's window, under the initial number of the peer.
#[tactic(auto, unfolding(crate::specs::Ends::receive_text))]
fn push_receive_space<A: Allocator>(
    text: &mut String<A>,
    end: &Endpoint<A>,
    initial: Seq,
) -> Result<(), AllocError>
    ensures { OnOk result (string_bytes text.new ≡ string_bytes text.old ++ receive_text initial.0 end.now) }
{
    if end.negotiated().is_none() {
        return text.push_str(" next - limit -");
    }
    let next = number_of(initial, end.rcv_position());
    let (window, _) = end.windows();
    let limit = next.plus(window);
    write!(text, " next {} limit {}", next.0, limit.0)
}

/// Appends which timers have to run.
#[tactic(auto, unfolding(crate::specs::Ends::timers_text))]
fn push_timers<A: Allocator>(text: &mut String<A>, end: &Endpoint<A>) -> Result<(), AllocError>
    ensures { OnOk result (string_bytes text.new ≡ string_bytes text.old ++ timers_text end.now) }
{
    let (retransmit, reorder, timewait) = end.timers();
    let retransmit = yes_or_no(retransmit);
    let reorder = yes_or_no(reorder);
    let timewait = yes_or_no(timewait);
    write!(
        text,
        " retransmit {retransmit} reorder {reorder} timewait {timewait}"
    )
}

/// Appends the line of this side.
#[tactic(auto, unfolding(crate::specs::Ends::numbers_line))]
fn push_numbers_line<A: Allocator>(
    text: &mut String<A>,
    world: &World<A>,
    side: Side,
) -> Result<(), AllocError>
    ensures { OnOk result (string_bytes text.new ≡ string_bytes text.old ++ numbers_line world.now side) }
{
    let end = world.endpoint(side);
    let initial = world.endpoint(other(side)).config().isn;
    write!(text, "numbers {side}")?;
    push_send_space(text, end)?;
    push_receive_space(text, end, initial)?;
    push_timers(text, end)?;
    text.push_str("\n")
}

/// The lines of both sides of a world.
fn numbers_of<A: Allocator + Copy>(alloc: A, world: &World<A>) -> Result<String<A>, AllocError>
    ensures { IfOk result (λ text. string_bytes text ≡ numbers_lines world.now) }
{
    let mut text = String::new(alloc);
    push_numbers_line(&mut text, world, Side::A)?;
    push_numbers_line(&mut text, world, Side::B)?;
    Ok(text)
}

/// The first `n` events, or all where there are fewer.
fn first<A: Allocator>(events: &[Turn<A>], n: usize) -> &[Turn<A>]
    ensures { result.now ≡ take n events.now }
{
    if n > events.len() {
        return events;
    }
    &events[..n]
}

/// The lines of both sides after the first `n` events, or after all where there are fewer.
#[tactic(auto, using(crate::proofs::EventsBefore::events_before))]
fn numbers_after<A: Allocator + Copy>(
    alloc: A,
    world: &mut World<A>,
    events: &[Turn<A>],
    n: usize,
) -> Result<String<A>, AllocError>
    ensures { IfOk result (λ text. string_bytes text ≡ numbers_lines (world_after_turns world.old (take n (map turn_content events.now)))) }
{
    apply_all(alloc, world, first(events, n))?;
    numbers_of(alloc, world)
}

/// The sequence numbers and timers of both ends after the first `n` events of a script, or after all where there are
/// fewer (RFC 9293, 3.3.1 and 3.10.8). `NoMemory` can come at any turn.
#[tactic(auto, unfolding(crate::specs::Ends::numbers_text))]
pub fn show_numbers<A: Allocator + Copy>(
    alloc: A,
    script: &Script<A>,
    n: usize,
) -> Result<String<A>, ReportError>
    requires { CanBegin script.now }
    ensures text { IfOk result (λ text. string_bytes text ≡ numbers_text (script_content script.now) n) }
    ensures good { OnOk result (HasGoodConfigs script.now.a script.now.b) }
    ensures fault { IfErr result (HasReportFault (script_content script.now)) }
{
    let mut world = new_world(alloc, script)?;
    let text = numbers_after(alloc, &mut world, &script.events, n)?;
    Ok(text)
}
