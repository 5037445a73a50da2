//! The opening of a drill: a server and peers that nothing has reached.
ghost use Rattle.std.specs.Prelude.{◌≡◌, ◌≤◌, IfOk};
ghost use Rattle.drill.specs.Opening.{fresh_peers, fresh_run};

use crate::running_match::RunningMatch;
use base::NoMemory;
use frame_core::Maker;
use game_orders::{MAX_CLIENTS, MAX_LAG};
use peer_core::Peer;
use server_core::Server;
use std::alloc::Global;

/// The peers of 1 to `MAX_CLIENTS` clients, each with a world that the maker makes.
fn open_peers<M: Maker>(
    alloc: Global,
    maker: &M,
    seed: u32,
    clients: u8,
    lag: u8,
) -> Result<Vec<Peer<M::World>>, NoMemory>
    requires least { 1 ≤ clients }
    requires most { clients ≤ MAX_CLIENTS }
    requires least_lag { 1 ≤ lag }
    requires most_lag { lag ≤ MAX_LAG }
    ensures { IfOk result (λ peers.
        peers.items ≡ fresh_peers clients lag (M.made maker.now seed clients) 0 clients) }
{
    let mut peers = Vec::new(alloc);
    for me in 0..clients {
        let world = maker.make(alloc, seed, clients)?;
        let peer = Peer::create(alloc, me, clients, lag, world)?;
        peers.push(peer)?;
    }
    Ok(peers)
}

/// The running match of 1 to `MAX_CLIENTS` clients before its first event.
pub(crate) fn open<'a, M: Maker>(
    alloc: Global,
    maker: &M,
    seed: u32,
    clients: u8,
    lag: u8,
) -> Result<RunningMatch<'a, M::World>, NoMemory>
    requires least { 1 ≤ clients }
    requires most { clients ≤ MAX_CLIENTS }
    requires least_lag { 1 ≤ lag }
    requires most_lag { lag ≤ MAX_LAG }
    ensures { IfOk result (λ run. run ≡ fresh_run clients lag (M.made maker.now seed clients)) }
{
    let world = maker.make(alloc, seed, clients)?;
    let server = Server::create(alloc, clients, world)?;
    let peers = open_peers(alloc, maker, seed, clients, lag)?;
    Ok(RunningMatch {
        clients,
        lag,
        sent: Vec::new(alloc),
        server,
        peers,
    })
}
