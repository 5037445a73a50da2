//! What is printed of a match that was served.
ghost use Rattle.std.specs.Prelude.{◌≡◌, ◌≤◌, []};
ghost use Rattle.game_orders.specs.declared.limits.TheConstants.{MAX_CLIENTS};
ghost use Rattle.serve_command.specs.Serves.{ServesBy};

use crate::serve_text::served_answer;
use command_answers::OUT_OF_MEMORY;
use frame_core::{Maker, Sim};
use game_io::{Net, Sink, Source, Watch};
use game_orders::MAX_CLIENTS;
use link_commands::{lost_answer, print_made};
use match_net::Invite;
use match_serve::{ServeFault, serve_watched};
use std::alloc::Global;
use std::sync::Wait;
use std::thread::Threads;

/// Serves a match over the links of a net that come to this address, and prints how it ended; the
/// status is returned. The invite says of how many clients, by which lag, seed and rules number the
/// match is, and its worlds are those of the maker, which ask no lag. The console may kick clients,
/// and the watch is told what happens. It returns only if its threads do.
pub fn serve_over<
    M: Maker,
    K: Sink,
    N: Net,
    C: Source + Send,
    W: Watch + Sync,
    R: Threads + Wait + Sync,
>(
    rt: &R,
    alloc: Global,
    at: &str,
    invite: &Invite,
    maker: &M,
    out: &mut K,
    net: &mut N,
    console: &mut C,
    watch: &W,
) -> u8
    requires least { 1 ≤ invite.now.clients }
    requires most { invite.now.clients ≤ MAX_CLIENTS }
    requires links { (N.state net.old).given ≡ [] }
    ensures serves { ServesBy (record {
      start = M.made maker.now invite.now.seed invite.now.clients;
      after = M.World.after;
      hash = M.World.hash_of;
      summary = M.World.summary_of;
      clients = invite.now.clients;
      lag = 0;
    }) invite.now result (N.state net.old) (N.state net.new) (C.state console.old)
        (C.state console.new) (K.state out.old) (K.state out.new) }
    ensures later { (K.state out.old).faults ≤ (K.state out.new).faults }
{
    let Ok(sim) = maker.make(alloc, invite.seed, invite.clients) else {
        return OUT_OF_MEMORY;
    };
    match serve_watched(rt, alloc, invite, at, sim, net, console, watch) {
        Ok(served) => print_made(served_answer(rt, alloc, served), out),
        Err(ServeFault::Net) => print_made(lost_answer(alloc), out),
        Err(ServeFault::NoMemory) => OUT_OF_MEMORY,
    }
}
