//! Events in the script's words.
ghost use Rattle.std.specs.Prelude.{◌≡◌, ◌++◌, OnOk, string_bytes};
ghost use Rattle.tcp_replay.specs.Events.{event_content};
ghost use Rattle.kit_report.specs.Events.{others_text, event_text};

use kit_script::{kind_name, kind_of};
use kit_text::push_word_number;
use std::alloc::{AllocError, Allocator};
use tcp_replay::Event;

/// The words after the side, without the bytes that are sent.
fn push_others<A: Allocator>(text: &mut String<A>, event: &Event<A>) -> Result<(), AllocError>
    ensures { OnOk result (string_bytes text.new ≡ string_bytes text.old ++ others_text (event_content event.now)) }
{
    match event {
        Event::Receive(_, room) => push_word_number(text, " ", *room as u64),
        Event::Timer(_, timer) => {
            text.push_str(" ")?;
            text.push_str(timer.name())
        }
        Event::Resend(_, from, to) => write!(text, " {from} {to}"),
        Event::Deliver(_, k) => push_word_number(text, " ", *k as u64),
        Event::Damage(_, k, place, value) => write!(text, " {k} {place} {value}"),
        _ => Ok(()),
    }
}

/// Appends an event, without the bytes that are sent.
#[tactic(auto, unfolding(crate::specs::Events::event_text))]
pub(crate) fn push_event<A: Allocator>(
    text: &mut String<A>,
    event: &Event<A>,
) -> Result<(), AllocError>
    ensures { OnOk result (string_bytes text.new ≡ string_bytes text.old ++ event_text (event_content event.now)) }
{
    text.push_str(kind_name(kind_of(event)))?;
    text.push_str(" ")?;
    text.push_str(event.side().name())?;
    push_others(text, event)
}
