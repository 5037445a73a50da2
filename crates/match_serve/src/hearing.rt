//! How reports go from the queue to the board.
ghost use Rattle.std.specs.Prelude.{◌≡◌, length, OnOk};
ghost use Rattle.report_line.specs.Order.{IsInterleaving};
ghost use Rattle.report_line.specs.Reports.{heard, joined, ends_of, IsSameReceiver};
ghost use Rattle.match_serve.specs.Heard.{HasHeard};

use base::NoMemory;
use match_net::ReportReceiver;
use server_core::Board;
use std::sync::Wait;

/// Takes all reports that are in the queue to the board, which has the first of each client for
/// each frame of all that were heard.
pub(crate) fn take_reports<R: Wait>(
    rt: &R,
    receiver: &mut ReportReceiver,
    board: &mut Board,
) -> Result<(), NoMemory>
    requires { HasHeard (length board.old.reports) board.old.reports (heard receiver.old) }
    ensures board { OnOk result
        (HasHeard (length board.old.reports) board.new.reports (heard receiver.new)) }
    ensures all { OnOk result (length (joined receiver.new) ≡ ends_of receiver.new →
        IsInterleaving (heard receiver.new) (joined receiver.new)) }
    ensures boards { length board.new.reports ≡ length board.old.reports }
    ensures wanted { board.new.wanted ≡ board.old.wanted }
    ensures joined { joined receiver.new ≡ joined receiver.old }
    ensures same { IsSameReceiver receiver.old receiver.new }
{
    for _turn in rt.forever() {
        let Some(report) = receiver.receive(rt) else {
            return Ok(());
        };
        if report.client < board.clients() {
            let _answer = board.reported(report.client, report.frame, report.hash)?;
        }
    }
    unreachable!()
}
