//! The calls on a queue of reports.
ghost use Rattle.std.specs.Prelude.{◌≡◌, ◌+◌, ◌∷◌, ◌++◌, [], length};
ghost use Rattle.std.specs.Prelude.{IfOk, IfSome, IfNone, OnOk, OnErr};
ghost use Rattle.report_line.specs.Order.{IsInterleaving};
ghost use Rattle.report_line.specs.Reports.{pushed, number_of, queue_of};
ghost use Rattle.report_line.specs.Reports.{heard, joined, ends_of, queue_heard};
ghost use Rattle.report_line.specs.Reports.{IsSameEnd, IsSameReceiver, IsNewEnd, AreNewEnds};

use crate::heard::Heard;
use crate::line::Line;
use crate::queue_rule::{Ends, Popped, Pushed};
use crate::report_ends::ReportEnds;
use crate::report_receiver::ReportReceiver;
use crate::reports::Reports;
use base::{List, NoMemory};
use crossbeam_queue::RuledSegQueue;
use std::alloc::{AllocError, Global};
use std::sync::{Arc, Wait};

/// A new queue with so many ends, numbered from 0 on, and its receiver: nothing was pushed, and
/// nothing heard. It fails only where it is out of memory.
#[tactic(auto, using(crate::proofs::EndLemmas::ends_none, crate::proofs::EndLemmas::ends_more, crate::proofs::EndLemmas::ends_all))]
pub fn report_queue(alloc: Global, ends: u8) -> Result<ReportEnds, NoMemory>
    ensures { IfOk result (λ made. AreNewEnds ends made.ends made.receiver) }
{
    let (queue, pass) = RuledSegQueue::with_rule(alloc)?;
    let line = Arc::new(alloc, Line { queue })?;
    let mut receiver = ReportReceiver { line, pass };
    let mut made = List::new(alloc);
    for _end in 0..ends {
        made.push(receiver.new_end()?)?;
    }
    Ok(ReportEnds {
        ends: made,
        receiver,
    })
}

impl Reports {
    /// Pushes a report. Out of memory is its one error, and then nothing has changed.
    pub fn push<R: Wait>(&mut self, rt: &R, report: Heard) -> Result<(), NoMemory>
        ensures ok { OnOk result (pushed self.new ≡ pushed self.old ++ report ∷ []) }
        ensures err { OnErr result (pushed self.new ≡ pushed self.old) }
        ensures same { IsSameEnd self.old self.new }
    {
        match self
            .line
            .queue
            .push_as::<Pushed, R>(rt, &mut self.pass, report)
        {
            Ok(()) => Ok(()),
            Err(_) => Err(AllocError),
        }
    }
}

impl ReportReceiver {
    /// One more end of the queue, with the next number and nothing pushed. It fails only where it
    /// is out of memory.
    #[tactic(auto, using(crate::proofs::RuleLemmas::forks))]
    fn new_end(&mut self) -> Result<Reports, NoMemory>
        ensures same { queue_heard self.new ≡ queue_heard self.old }
        ensures heard { heard self.new ≡ heard self.old }
        ensures joined { joined self.new ≡ joined self.old }
        ensures end { IfOk result (λ end. (ends_of self.new ≡ ends_of self.old + 1) ×
            IsNewEnd (queue_heard self.old) (ends_of self.old) end) }
    {
        let line = Arc::try_clone(&self.line)?;
        let pass = self.line.queue.another::<Ends>(&mut self.pass);
        Ok(Reports { line, pass })
    }

    /// The next report, or `None` where the queue was empty at one moment of the call. If all ends
    /// were joined before, all that they pushed was then heard.
    pub fn receive<R: Wait>(&mut self, rt: &R) -> Option<Heard>
        ensures some { IfSome result (λ report. heard self.new ≡ heard self.old ++ report ∷ []) }
        ensures none { IfNone result (heard self.new ≡ heard self.old) }
        ensures all { IfNone result (length (joined self.new) ≡ ends_of self.new →
            IsInterleaving (heard self.new) (joined self.new)) }
        ensures joined { joined self.new ≡ joined self.old }
        ensures same { IsSameReceiver self.old self.new }
    {
        self.line.queue.pop_as::<Popped, R>(rt, &mut self.pass)
    }

    /// Takes in an end of its queue, the one that comes next by number: from then on it is known
    /// what the end pushed in all.
    #[tactic(auto, using(crate::proofs::RuleLemmas::merges))]
    pub fn join(&mut self, end: Reports)
        requires queue { queue_of end ≡ queue_heard self.old }
        requires next { number_of end ≡ length (joined self.old) }
        ensures heard { heard self.new ≡ heard self.old }
        ensures joined { joined self.new ≡ joined self.old ++ pushed end ∷ [] }
        ensures same { IsSameReceiver self.old self.new }
    {
        let Reports { line: _line, pass } = end;
        self.line.queue.absorb::<Ends>(&mut self.pass, pass);
    }
}
