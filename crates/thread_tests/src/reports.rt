//! Reports that two threads push, and the calling thread hears.
ghost use Rattle.std.specs.Prelude.{◌≡◌, ◌∷◌, ◌++◌, [], true, length, IfOk};
ghost use denote.Param.Send.{IsSync};
ghost use Rattle.report_line.specs.Order.{IsInterleaving};
ghost use Rattle.report_line.specs.Reports.{pushed, heard, joined, ends_of, queue_heard};
ghost use Rattle.report_line.specs.Reports.{IsSameEnd, IsNewEnd};

use base::NoMemory;
use report_line::{Heard, ReportEnds, ReportReceiver, Reports, report_queue};
use std::alloc::Global;
use std::process::Abort;
use std::sync::Wait;
use std::test::Fail;
use std::thread;
use std::thread::Threads;

/// A new queue of two ends, and these.
fn two_ends(rt: &impl Abort, alloc: Global) -> Result<(ReportReceiver, Reports, Reports), NoMemory>
    ensures receiver { IfOk result (λ made. (heard made.0 ≡ []) × (joined made.0 ≡ []) ×
        (ends_of made.0 ≡ 2)) }
    ensures first { IfOk result (λ made. IsNewEnd (queue_heard made.0) 0 made.1) }
    ensures second { IfOk result (λ made. IsNewEnd (queue_heard made.0) 1 made.2) }
{
    let ReportEnds { ends, receiver } = report_queue(alloc, 2)?;
    let mut ends = ends.into_vec();
    let second = ends.pop().expect(rt, "two ends");
    let first = ends.pop().expect(rt, "one end");
    Ok((receiver, first, second))
}

/// Pushes these reports in order, and answers the end and whether there was memory for all.
fn push_all<R: Wait>(rt: &R, end: Reports, reports: &[Heard]) -> (Reports, bool)
    ensures same { IsSameEnd end result.0 }
    ensures all { result.1 ≡ true → pushed result.0 ≡ pushed end ++ reports.now }
{
    let mut own = end;
    for report in reports {
        if own.push(rt, *report).is_err() {
            return (own, false);
        }
    }
    (own, true)
}

/// What a receiver hears that has heard nothing, and that all ends of its queue were joined to.
fn hear_all<R: Wait>(
    rt: &R,
    alloc: Global,
    receiver: ReportReceiver,
) -> Result<Vec<Heard>, NoMemory>
    requires unheard { heard receiver ≡ [] }
    requires all { length (joined receiver) ≡ ends_of receiver }
    ensures { IfOk result (λ all. IsInterleaving all.items (joined receiver)) }
{
    let mut own = receiver;
    let mut all = Vec::new(alloc);
    for _ in rt.forever() {
        match own.receive(rt) {
            Some(report) => all.push(report)?,
            None => return Ok(all),
        }
    }
    unreachable!()
}

/// What is heard of two threads that push these reports. The first end is joined after it was
/// pushed to, and so is the second.
fn hear_two<R: Abort + Threads + Wait + Sync>(
    rt: &R,
    alloc: Global,
    first: &[Heard],
    second: &[Heard],
) -> Result<Vec<Heard>, NoMemory>
    ensures { IfOk result (λ all.
        IsInterleaving all.items (first.now ∷ second.now ∷ [])) }
{
    let (mut receiver, one, other) = two_ends(rt, alloc)?;
    let ((one, whole), (other, all)) = thread::join(
        rt,
        move || -> (Reports, bool)
            requires { IsSync R.row }
            ensures { IsSameEnd one result.0 ×
                (result.1 ≡ true → pushed result.0 ≡ pushed one ++ first.entry.now) }
        { push_all(rt, one, first) },
        move || -> (Reports, bool)
            ensures { IsSameEnd other result.0 ×
                (result.1 ≡ true → pushed result.0 ≡ pushed other ++ second.entry.now) }
        { push_all(rt, other, second) },
    );
    assert!(rt; whole);
    assert!(rt; all);
    receiver.join(one);
    receiver.join(other);
    hear_all(rt, alloc, receiver)
}

/// The report of a client on a frame.
fn report(client: u8, frame: u32) -> Heard {
    Heard {
        client,
        frame,
        hash: u64::from(client) + u64::from(frame),
    }
}

#[test]
fn two_threads(rt: HostRuntime) -> Result<(), Fail> {
    let first = [report(0, 0), report(0, 1), report(0, 2)];
    let second = [report(1, 0), report(1, 1)];
    let all = hear_two(&rt, rt.alloc(), first.as_slice(), second.as_slice())?;
    for (client, pushed) in [(0, first.as_slice()), (1, second.as_slice())] {
        let mut heard = Vec::new(rt.alloc());
        for report in all.as_slice() {
            if report.client == client {
                heard.push(*report)?;
            }
        }
        assert_eq!(rt; heard.as_slice(), pushed);
    }
    assert_eq!(rt; all.len(), 5);
    Ok(())
}

#[test]
fn an_empty_queue(rt: HostRuntime) -> Result<(), Fail> {
    let mut queue = report_queue(rt.alloc(), 1)?;
    assert_eq!(rt; queue.receiver.receive(&rt), None);
    let mut end = queue.ends.into_vec().pop().expect(&rt, "one end");
    end.push(&rt, report(0, 7))?;
    assert_eq!(rt; queue.receiver.receive(&rt), Some(report(0, 7)));
    assert_eq!(rt; queue.receiver.receive(&rt), None);
    Ok(())
}
