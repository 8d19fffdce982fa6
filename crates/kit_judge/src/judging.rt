//! A log judged line by line.
ghost use Rattle.std.specs.Prelude.{◌≡◌, ℕ, List, ◌++◌, ◌^◌, ◌<◌, length, IfOk, OnOk};
ghost use Rattle.tcp_judge.specs.Judgement.{finding_at, known_past};
ghost use Rattle.kit_judge.specs.Logs.{passage_by, packet_content, passages_of, first_bad_line};
ghost use Rattle.kit_judge.specs.Verdict.{found_at, note_at, is_sent, found_in, Finds};

use crate::error::LogError;
use crate::finding::{is_damage, wants_whole_log};
use crate::packet::{Packet, Way, read_packet};
use kit_text::{LineError, Lines};
use std::alloc::{AllocError, Allocator, Global};
use tcp_judge::{Finding, Judge};

/// What was found in a log.
#[derive(Debug, Drop)]
pub(crate) struct Findings<A: Allocator = Global> {
    /// Each segment that breaks a rule: the number of its line, and the rule.
    pub(crate) found: Vec<(usize, Finding), A>,
    /// The lines of segments that may have been damaged on their way.
    pub(crate) notes: Vec<usize, A>,
    /// How many segments there are.
    pub(crate) segments: usize,
    /// Whether one of them was sent.
    pub(crate) any_sent: bool,
}

fn is_sent(way: Way) -> bool
    ensures { (src dst bytes : List ℕ) → result ≡ is_sent (passage_by way src dst bytes) }
{
    match way {
        Way::Came => false,
        Way::Went => true,
    }
}

/// The rule that a packet breaks.
fn take<A: Allocator + Copy>(
    judge: &mut Judge<A>,
    packet: &Packet<A>,
) -> Result<Option<Finding>, AllocError>
    ensures finding { IfOk result (λ finding. finding ≡ finding_at judge.old (packet_content packet.now)) }
    ensures known { OnOk result (judge.new ≡ known_past judge.old (packet_content packet.now)) }
{
    match packet.way {
        Way::Came => {
            judge.came(packet.src, packet.dst, &packet.bytes)?;
            Ok(None)
        }
        Way::Went => judge.went(packet.src, packet.dst, &packet.bytes),
    }
}

/// Adds a finding that counts, or its line to the notes.
fn add<A: Allocator>(
    found: &mut Vec<(usize, Finding), A>,
    notes: &mut Vec<usize, A>,
    line: usize,
    finding: Option<Finding>,
    is_complete: bool,
) -> Result<(), AllocError>
    ensures found { OnOk result (found.new.items ≡ found.old.items ++ found_at is_complete line finding) }
    ensures notes { OnOk result (notes.new.items ≡ notes.old.items ++ note_at is_complete line finding) }
{
    match finding {
        Some(finding) if !is_complete && is_damage(finding) => {
            notes.push(line)?;
            Ok(())
        }
        Some(finding) if is_complete || !wants_whole_log(finding) => {
            found.push((line, finding))?;
            Ok(())
        }
        _ => Ok(()),
    }
}

/// The findings of lines, or the first bad line.
#[tactic(auto, using(crate::proofs::PassageCounts::length_passages_of), unfolding(crate::specs::Logs::passages_of, crate::specs::Logs::first_bad_line, crate::specs::Verdict::findings_from, crate::specs::Verdict::notes_from, crate::specs::Verdict::any_sent))]
pub(crate) fn find_all<A: Allocator + Copy>(
    alloc: A,
    lines: Lines<'_>,
    is_complete: bool,
) -> Result<Findings<A>, LogError>
    requires { length lines < 2 ^ 64 }
    ensures { Finds result (first_bad_line lines.entry) (found_in is_complete (passages_of lines.entry)) }
{
    let mut judge = Judge::new_in(alloc);
    let mut found = Vec::new(alloc);
    let mut notes = Vec::new(alloc);
    let mut segments = 0usize;
    let mut any_sent = false;
    for (number, line) in lines {
        let packet = match read_packet(alloc, line) {
            Ok(packet) => packet,
            Err(LineError::BadForm) => return Err(LogError::BadLine { line: number }),
            Err(LineError::NoMemory) => return Err(LogError::NoMemory),
        };
        segments += 1;
        any_sent = any_sent || is_sent(packet.way);
        let finding = take(&mut judge, &packet)?;
        add(&mut found, &mut notes, number, finding, is_complete)?;
    }
    Ok(Findings {
        found,
        notes,
        segments,
        any_sent,
    })
}
