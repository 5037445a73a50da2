//! The closing lines of a report, which follow those of the events.
ghost use Rattle.std.specs.Prelude.{◌≡◌, ◌<◌, ◌≤◌, ◌++◌, string_bytes, length, IfOk, OnOk};
ghost use Rattle.server_core.specs.Alarm.{alarm_of};
ghost use Rattle.server_core.specs.Board.{reports_of};
ghost use Rattle.drill.specs.Report.{column_lines, peer_lines, alarm_text, alarm_lines, closing};

use crate::drilled::Drilled;
use crate::text::{
    add_alarm_line, add_column_line, add_end_line, add_peer_head, add_server_head, write_world,
};
use base::NoMemory;
use frame_core::{Columns, Sim};
use game_orders::MAX_CLIENTS;
use peer_core::Peer;
use server_core::Board;
use std::alloc::Global;

/// The closing lines of a report: the line of each column, each peer, the server and each alarm,
/// and `end`.
pub fn closing_lines<S: Sim>(alloc: Global, left: &Drilled<S>) -> Result<String, NoMemory>
    ensures { IfOk result (λ text.
        string_bytes text ≡ closing S.hash_of S.summary_of left.now.server left.now.peers) }
{
    let mut text = String::new(alloc);
    add_closing(&mut text, left)?;
    Ok(text)
}

/// Adds the closing lines.
pub(crate) fn add_closing<S: Sim>(text: &mut String, left: &Drilled<S>) -> Result<(), NoMemory>
    ensures { OnOk result (string_bytes text.new
        ≡ string_bytes text.old ++ closing S.hash_of S.summary_of left.now.server left.now.peers) }
{
    let server = &left.server;
    write_columns(text, server.columns())?;
    add_peers(text, left.peers.as_slice())?;
    add_server_head(text, server.ticked())?;
    write_world(text, server.sim())?;
    write_alarms(text, server.board())?;
    add_end_line(text)
}

/// Adds the line of each column.
pub(crate) fn write_columns(text: &mut String, columns: &Columns) -> Result<(), NoMemory>
    ensures { OnOk result (string_bytes text.new
        ≡ string_bytes text.old ++ column_lines 0 columns.now) }
{
    for c in 0..columns.clients() {
        add_column_line(text, c, columns.plays(c), columns.left(c))?;
    }
    Ok(())
}

/// Adds the line of each peer.
fn add_peers<S: Sim>(text: &mut String, peers: &[Peer<S>]) -> Result<(), NoMemory>
    requires { length peers.now ≤ MAX_CLIENTS }
    ensures { OnOk result (string_bytes text.new
        ≡ string_bytes text.old ++ peer_lines S.hash_of S.summary_of 0 peers.now) }
{
    for (p, peer) in peers.iter().enumerate() {
        add_peer_head(text, p as u8, peer.ticked(), peer.sealed())?;
        write_world(text, peer.sim())?;
    }
    Ok(())
}

/// Adds the line of each alarm.
pub(crate) fn write_alarms(text: &mut String, board: &Board) -> Result<(), NoMemory>
    ensures { OnOk result (string_bytes text.new
        ≡ string_bytes text.old ++ alarm_lines board.now.wanted 0 board.now.reports) }
{
    for c in 0..board.clients() {
        add_alarm(text, board, c)?;
    }
    Ok(())
}

/// Adds the line of a client's alarm, if there is one.
fn add_alarm(text: &mut String, board: &Board, c: u8) -> Result<(), NoMemory>
    requires { c < length board.now.reports }
    ensures { OnOk result (string_bytes text.new ≡ string_bytes text.old
        ++ alarm_text c (alarm_of (reports_of board.now.reports c) board.now.wanted)) }
{
    match board.alarm(c) {
        Some(alarm) => add_alarm_line(text, c, alarm),
        None => Ok(()),
    }
}
