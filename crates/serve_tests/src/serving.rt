//! How the tests serve a match.
ghost use Rattle.std.specs.Prelude.{◌≡◌, IfOk, [], length};
ghost use Rattle.frame_table.specs.Calls.{plan_of, IsPassOf};

use frame_core::{Sim, Tally};
use frame_table::Seen;
use game_io::{FailingCall, MemNet, MemSource, Net, Source, Watch};
use match_net::Invite;
use match_serve::{LinkEnd, Served, serve_match, serve_watched};
use std::alloc::{AllocError, Global};
use std::sync::Wait;
use std::test::Fail;
use std::thread::Threads;

const INVITE: Invite = Invite {
    client: 0,
    clients: 2,
    lag: 2,
    seed: 9,
    rules: 0xaf63_bd4c_8601_b7df,
};

/// Two links with these bytes. These puts of the first fail.
pub fn two_links(
    alloc: Global,
    first: &[u8],
    second: &[u8],
    puts: Vec<FailingCall>,
) -> Result<MemNet, AllocError>
    ensures { IfOk result (λ net. net.given ≡ []) }
{
    let mut net = MemNet::new(alloc, Vec::new(alloc));
    add_link(alloc, &mut net, first, puts)?;
    add_link(alloc, &mut net, second, Vec::new(alloc))?;
    Ok(net)
}

/// Adds a link with these bytes, of which these puts fail.
fn add_link(
    alloc: Global,
    net: &mut MemNet,
    bytes: &[u8],
    puts: Vec<FailingCall>,
) -> Result<(), AllocError>
    ensures { net.new.given ≡ net.old.given }
{
    net.add(Vec::from_slice(alloc, bytes)?, Vec::new(alloc), puts)
}

/// What the tests look at of a match that was served.
#[derive(Drop)]
pub struct Outcome {
    /// How each link ended, by client.
    pub ends: Vec<LinkEnd>,
    /// How many bytes were taken from each link, by client.
    pub taken: Vec<u64>,
    /// How much of the columns of clients 0 and 1 the table shows.
    pub seen: (Seen, Seen),
    /// The hash of the world after the match.
    pub hash: u64,
}

/// What is looked at of this match.
fn outcome_of(served: Served<Tally>) -> Outcome
    requires pass { IsPassOf served.table served.pass }
    requires clients { length (plan_of served.table) ≡ 2 }
{
    let mut pass = served.pass;
    let first = served.table.seen(&mut pass, 0);
    let second = served.table.seen(&mut pass, 1);
    Outcome {
        hash: served.sim.hash(),
        seen: (first, second),
        ends: served.ends.into_vec(),
        taken: served.taken.into_vec(),
    }
}

/// Serves a match of two clients over the least world, while the console gives these lines.
pub fn serve<N: Net, R: Threads + Wait + Sync>(
    rt: &R,
    alloc: Global,
    net: &mut N,
    lines: &[u8],
) -> Result<Outcome, Fail>
    requires no_links { (N.state net.old).given ≡ [] }
{
    let mut console = MemSource::new(Vec::from_slice(alloc, lines)?, Vec::new(alloc));
    serve_by_console(rt, alloc, net, &mut console)
}

/// Serves such a match over this console.
pub fn serve_by_console<N: Net, C: Source + Send, R: Threads + Wait + Sync>(
    rt: &R,
    alloc: Global,
    net: &mut N,
    console: &mut C,
) -> Result<Outcome, Fail>
    requires no_links { (N.state net.old).given ≡ [] }
{
    match serve_match(rt, alloc, &INVITE, "here", Tally::new(), net, console) {
        Ok(served) => Ok(outcome_of(served)),
        Err(_) => Err(Fail::new("the match is not served")),
    }
}

/// Serves such a match without a console's lines, and tells this watch what happens.
pub fn serve_logged<N: Net, W: Watch + Sync, R: Threads + Wait + Sync>(
    rt: &R,
    alloc: Global,
    net: &mut N,
    watch: &W,
) -> Result<Outcome, Fail>
    requires no_links { (N.state net.old).given ≡ [] }
{
    let world = Tally::new();
    let mut console = MemSource::new(Vec::new(alloc), Vec::new(alloc));
    match serve_watched(rt, alloc, &INVITE, "here", world, net, &mut console, watch) {
        Ok(served) => Ok(outcome_of(served)),
        Err(_) => Err(Fail::new("the match is not served")),
    }
}
