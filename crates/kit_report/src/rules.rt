//! The rule that applies to an arrival of a script (RFC 9293, 3.10.7).
ghost use Rattle.std.specs.Prelude.{◌≡◌, option_map, map, slice_get, take, IfOk, IfErr, OnOk};
ghost use Rattle.tcp_replay.specs.World.{HasGoodConfigs};
ghost use Rattle.tcp_replay.specs.Events.{event_content};
ghost use Rattle.kit_script.specs.Script.{turn_content, script_content, CanBegin};
ghost use Rattle.kit_report.specs.Faults.{HasReportFault};
ghost use Rattle.kit_report.specs.Report.{world_after_turns};
ghost use Rattle.kit_report.specs.Rules.{event_rule, rule_at, rule_in, rule_text, shown_rule};

use crate::error::ReportError;
use crate::outcomes::{address_of, other};
use crate::report::new_world;
use crate::shown::apply_all;
use kit_script::{Script, Turn};
use std::alloc::{AllocError, Allocator};
use tcp_conn::Judgement;
use tcp_replay::{Event, Side, World};

/// A rule in words: its name, and its section of RFC 9293.
fn rule_text(rule: Judgement) -> &'static str
    ensures { result.now ≡ rule_text rule }
{
    match rule {
        Judgement::Foreign => "foreign 3.10.7",
        Judgement::ResetIgnored => "reset-ignored 3.10.7.1 to 3.10.7.4",
        Judgement::Stray => "stray 3.10.7.1",
        Judgement::AckOfListen => "ack-of-listen 3.10.7.2, second",
        Judgement::OpensNothing => "opens-nothing 3.10.7.2, fourth, or 3.10.7.3, fifth",
        Judgement::PeerOpens => "peer-opens 3.10.7.2, third",
        Judgement::AckOfNoSyn => "ack-of-no-syn 3.10.7.3, first",
        Judgement::PeerRefuses => "peer-refuses 3.10.7.3, second",
        Judgement::PeerAccepts => "peer-accepts 3.10.7.3, fourth",
        Judgement::Unacceptable => "unacceptable 3.10.7.4, first",
        Judgement::PeerResets => "peer-resets 3.10.7.4, second",
        Judgement::ResetElsewhere => "reset-elsewhere 3.10.7.4, second",
        Judgement::SynInWindow => "syn-in-window 3.10.7.4, fourth",
        Judgement::NoAck => "no-ack 3.10.7.4, fifth",
        Judgement::AcksUnsent => "acks-unsent 3.10.7.4, fifth",
        Judgement::HandshakeRefused => "handshake-refused 3.10.7.4, fifth",
        Judgement::HandshakeRefusedShut => "handshake-refused-shut 3.10.7.4, fifth",
        Judgement::Taken => "taken 3.10.7.4, fifth to eighth",
        Judgement::TakenShut => "taken-shut 3.10.7.4, first",
    }
}

/// The rule that applies to bytes of this side that arrive at the other one now.
fn rule_at<A: Allocator>(world: &World<A>, side: Side, bytes: &[u8]) -> Option<Judgement>
    ensures { result ≡ rule_at world.now side bytes.now }
{
    let src = address_of(world, side);
    let dst = address_of(world, other(side));
    world.endpoint(other(side)).rule(src, dst, bytes)
}

/// The rule that applies to the segment that an event delivers; `None` where it delivers none.
fn event_rule<A: Allocator, E: Allocator>(world: &World<A>, event: &Event<E>) -> Option<Judgement>
    ensures { result ≡ event_rule world.now (event_content event.now) }
{
    match event {
        Event::Deliver(side, k) => {
            let bytes = world.sent(*side, *k)?;
            rule_at(world, *side, bytes)
        }
        _ => None,
    }
}

/// The rule of an event in words.
fn event_rule_text<A: Allocator, E: Allocator>(
    world: &World<A>,
    event: &Event<E>,
) -> Option<&'static str>
    ensures { option_map (λ text. text.now) result ≡ option_map rule_text (event_rule world.now (event_content event.now)) }
{
    let rule = event_rule(world, event)?;
    Some(rule_text(rule))
}

/// The rule of the event with this index, once the events before it are applied.
#[tactic(auto, using(crate::proofs::EventsBefore::none_past))]
fn rule_after<A: Allocator + Copy>(
    alloc: A,
    world: &mut World<A>,
    events: &[Turn<A>],
    n: usize,
) -> Result<Option<&'static str>, AllocError>
    ensures { IfOk result (λ rule. option_map (λ text. text.now) rule ≡ rule_in (world_after_turns world.old (take n (map turn_content events.now))) (slice_get (map turn_content events.now) n)) }
{
    if n >= events.len() {
        return Ok(None);
    }
    apply_all(alloc, world, &events[..n])?;
    Ok(event_rule_text(world, &events[n].event))
}

/// The rule that applies to the segment that event `n`, from 0, of a script delivers, in words (RFC 9293, 3.10.7).
/// `None` where there is no such event, or it delivers none. For a repeated event it is the rule of the first turn.
/// `NoMemory` can come at any turn before.
#[tactic(auto, unfolding(crate::specs::Rules::shown_rule))]
pub fn show_rule<A: Allocator + Copy>(
    alloc: A,
    script: &Script<A>,
    n: usize,
) -> Result<Option<&'static str>, ReportError>
    requires { CanBegin script.now }
    ensures rule { IfOk result (λ rule. option_map (λ text. text.now) rule ≡ shown_rule (script_content script.now) n) }
    ensures good { OnOk result (HasGoodConfigs script.now.a script.now.b) }
    ensures fault { IfErr result (HasReportFault (script_content script.now)) }
{
    let mut world = new_world(alloc, script)?;
    let rule = rule_after(alloc, &mut world, &script.events, n)?;
    Ok(rule)
}
