//! What is printed of a match that was served, and written of it after that.
ghost use Rattle.std.specs.Prelude.{◌≡◌, ◌≤◌, [], length, Some};
ghost use Rattle.frame_core.specs.Agreed.{AreReady};
ghost use Rattle.frame_table.specs.Calls.{IsPassOf};
ghost use Rattle.game_orders.specs.declared.limits.TheConstants.{MAX_CLIENTS};
ghost use Rattle.command_answers.specs.Answer.{reply_of};
ghost use Rattle.command_answers.specs.Writing.{AnswersReply, WritesLast};
ghost use Rattle.match_run.specs.Local.{longest};
ghost use Rattle.match_serve.specs.Passes.{columns_of};
ghost use Rattle.match_serve.specs.Serve.{IsOver};
ghost use Rattle.match_record.specs.Matches.{match_from};
ghost use Rattle.serve_command.specs.Records.{recorded_reply, served_record};
ghost use Rattle.serve_command.specs.Records.{IsSpelled, RecordsBy};

use crate::serve_text::closed_answer;
use command_answers::{Answer, FAULT_WRITE, FileBytes, OUT_OF_MEMORY, write_last};
use frame_core::{Columns, Maker, Sim};
use game_io::{Disk, Net, Sink, Source, Watch};
use game_orders::MAX_CLIENTS;
use link_commands::{lost_answer, print_made};
use match_net::Invite;
use match_record::record_bytes;
use match_serve::{ServeFault, Served, serve_watched};
use std::alloc::Global;
use std::sync::Wait;
use std::thread::Threads;

/// Writes the replay of a match with these columns to the file of this name, after the text of an
/// answer with this status.
fn write_record<M: Maker, D: Disk>(
    alloc: Global,
    invite: &Invite,
    maker: &M,
    name: &str,
    columns: &Columns,
    status: u8,
    disk: &mut D,
) -> u8
    requires least { 1 ≤ invite.now.clients }
    requires most { invite.now.clients ≤ MAX_CLIENTS }
    requires count { length columns.now ≡ invite.now.clients }
    requires ready { AreReady columns.now (longest columns.now) }
    ensures writes { WritesLast (Some (record {
      name = name.now;
      bytes = served_record (match_from M.World.after M.World.hash_of M.World.summary_of
          (M.made maker.now invite.now.seed invite.now.clients) invite.now.clients) invite.now columns.now;
    })) status result (D.state disk.old) (D.state disk.new) }
    ensures spelled { IsSpelled (match_from M.World.after M.World.hash_of M.World.summary_of
        (M.made maker.now invite.now.seed invite.now.clients) invite.now.clients) invite.now columns.now (D.state disk.old) (D.state disk.new) }
    ensures later { (D.state disk.old).faults ≤ (D.state disk.new).faults }
{
    match record_bytes(
        alloc,
        invite.rules,
        invite.seed,
        invite.clients,
        maker,
        columns,
    ) {
        Ok(bytes) => write_last(alloc, disk, Some(FileBytes { name, bytes }), status),
        Err(_) => OUT_OF_MEMORY,
    }
}

/// Prints an answer of a match with these columns, and then writes the match's replay to the file
/// of this name.
fn print_recorded<M: Maker, D: Disk, K: Sink>(
    alloc: Global,
    invite: &Invite,
    maker: &M,
    name: &str,
    columns: &Columns,
    answer: &Answer<'_>,
    disk: &mut D,
    out: &mut K,
) -> u8
    requires least { 1 ≤ invite.now.clients }
    requires most { invite.now.clients ≤ MAX_CLIENTS }
    requires count { length columns.now ≡ invite.now.clients }
    requires ready { AreReady columns.now (longest columns.now) }
    ensures answers { AnswersReply (record (reply_of answer.now) {
      write = Some (record {
        name = name.now;
        bytes = served_record (match_from M.World.after M.World.hash_of M.World.summary_of
            (M.made maker.now invite.now.seed invite.now.clients) invite.now.clients) invite.now columns.now;
      });
    }) result (D.state disk.old) (D.state disk.new) (K.state out.old) (K.state out.new) }
    ensures spelled { IsSpelled (match_from M.World.after M.World.hash_of M.World.summary_of
        (M.made maker.now invite.now.seed invite.now.clients) invite.now.clients) invite.now columns.now (D.state disk.old) (D.state disk.new) }
    ensures disk { (D.state disk.old).faults ≤ (D.state disk.new).faults }
    ensures later { (K.state out.old).faults ≤ (K.state out.new).faults }
{
    match out.put(&answer.text) {
        Ok(()) => write_record(alloc, invite, maker, name, columns, answer.status, disk),
        Err(_) => FAULT_WRITE,
    }
}

/// Prints how a match that was served ended, and then writes its replay to the file of this name.
fn record_served<M: Maker, D: Disk, K: Sink, R: Wait>(
    rt: &R,
    alloc: Global,
    invite: &Invite,
    maker: &M,
    name: &str,
    served: Served<M::World>,
    disk: &mut D,
    out: &mut K,
) -> u8
    requires least { 1 ≤ invite.now.clients }
    requires most { invite.now.clients ≤ MAX_CLIENTS }
    requires pass { IsPassOf served.table served.pass }
    requires few { length served.ends ≤ MAX_CLIENTS }
    requires over { IsOver invite.now.clients served.table served.pass }
    requires ready { AreReady (columns_of served.pass) (longest (columns_of served.pass)) }
    ensures answers { AnswersReply (recorded_reply (match_from M.World.after M.World.hash_of
        M.World.summary_of
        (M.made maker.now invite.now.seed invite.now.clients) invite.now.clients) invite.now name.now (columns_of served.pass) served.ends served.sim served.board) result
        (D.state disk.old) (D.state disk.new) (K.state out.old) (K.state out.new) }
    ensures spelled { IsSpelled (match_from M.World.after M.World.hash_of M.World.summary_of
        (M.made maker.now invite.now.seed invite.now.clients) invite.now.clients) invite.now (columns_of served.pass) (D.state disk.old) (D.state disk.new) }
    ensures disk { (D.state disk.old).faults ≤ (D.state disk.new).faults }
    ensures later { (K.state out.old).faults ≤ (K.state out.new).faults }
{
    let Served {
        sim,
        table,
        pass,
        board,
        ends,
        taken: _,
    } = served;
    let columns = table.close(rt, pass);
    match closed_answer(alloc, &columns, ends.as_slice(), &sim, &board) {
        Ok(answer) => print_recorded(alloc, invite, maker, name, &columns, &answer, disk, out),
        Err(_) => OUT_OF_MEMORY,
    }
}

/// Serves a match as [`serve_over`](crate::serve_over) does, prints how it ended, and then writes
/// its replay to the file of this name: the agreed frames that the server ticked, and after each a
/// mark with the hash of the world there. The frames are run once more for it. The status is that
/// of the text, also where memory ran out for a link, unless the file can't be written. No file
/// changes where the match was not played to its end, or a write of the text failed.
pub fn serve_recorded<
    M: Maker,
    D: Disk,
    K: Sink,
    N: Net,
    C: Source + Send,
    W: Watch + Sync,
    R: Threads + Wait + Sync,
>(
    rt: &R,
    alloc: Global,
    at: &str,
    invite: &Invite,
    maker: &M,
    name: &str,
    disk: &mut D,
    out: &mut K,
    net: &mut N,
    console: &mut C,
    watch: &W,
) -> u8
    requires least { 1 ≤ invite.now.clients }
    requires most { invite.now.clients ≤ MAX_CLIENTS }
    requires links { (N.state net.old).given ≡ [] }
    ensures records { RecordsBy (match_from M.World.after M.World.hash_of M.World.summary_of
        (M.made maker.now invite.now.seed invite.now.clients) invite.now.clients) invite.now name.now result (N.state net.old) (N.state net.new) (C.state console.old)
        (C.state console.new) (D.state disk.old) (D.state disk.new) (K.state out.old)
        (K.state out.new) }
    ensures disk { (D.state disk.old).faults ≤ (D.state disk.new).faults }
    ensures later { (K.state out.old).faults ≤ (K.state out.new).faults }
{
    let Ok(sim) = maker.make(alloc, invite.seed, invite.clients) else {
        return OUT_OF_MEMORY;
    };
    match serve_watched(rt, alloc, invite, at, sim, net, console, watch) {
        Ok(served) => record_served(rt, alloc, invite, maker, name, served, disk, out),
        Err(ServeFault::Net) => print_made(lost_answer(alloc), out),
        Err(ServeFault::NoMemory) => OUT_OF_MEMORY,
    }
}
