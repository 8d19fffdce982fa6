//! A log, passage by passage.
ghost use Rattle.std.specs.Prelude.{◌≡◌, IfOk, OnErr, OnOk, map};
ghost use Rattle.tcp_judge.specs.Judgement.{finding_at, first_finding, known_past};
ghost use Rattle.tcp_judge.specs.Known.{nothing_known};
ghost use Rattle.tcp_judge.specs.Log.{passage_content};

use crate::finding::Finding;
use crate::judge::Judge;
use crate::passage::Passage;
use std::alloc::{AllocError, Allocator, Global};

impl<A: Allocator + Copy> Judge<A> {
    /// A passage of a log: [`came`](Judge::came) or [`went`](Judge::went). What came breaks no rule.
    pub fn take(&mut self, passage: &Passage) -> Result<Option<Finding>, AllocError>
        ensures finding { IfOk result (λ finding. finding ≡ finding_at self.old (passage_content passage.now)) }
        ensures known { OnOk result (self.new ≡ known_past self.old (passage_content passage.now)) }
        ensures err { OnErr result (self.new ≡ self.old) }
    {
        match passage {
            Passage::Came(src, dst, bytes) => {
                self.came(*src, *dst, bytes)?;
                Ok(None)
            }
            Passage::Went(src, dst, bytes) => self.went(*src, *dst, bytes),
        }
    }
}

/// The first segment of a log that was sent and breaks a rule: its index in the log and the rule.
pub fn judge_log(alloc: Global, log: &[Passage]) -> Result<Option<(usize, Finding)>, AllocError>
    ensures { IfOk result (λ first. first ≡ first_finding nothing_known 0 (map passage_content log.now)) }
{
    let mut judge = Judge::new(alloc);
    for (i, passage) in log.iter().enumerate() {
        if let Some(finding) = judge.take(passage)? {
            return Ok(Some((i, finding)));
        }
    }
    Ok(None)
}
