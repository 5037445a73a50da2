//! What a player does after each packet.
ghost use Rattle.std.specs.Prelude.{◌≡◌, ◌<◌, ◌≤◌, ◌++◌, ◌-◌, ◌^◌, false, OnOk, IfOk};
ghost use Rattle.order_packets.specs.declared.up.Up.TheVariants.{Orders as orders_packet};
ghost use Rattle.order_packets.specs.PacketBytes.{up_bytes};
ghost use Rattle.match_net.specs.Playing.{telling, report_bytes, tick_once, RestsIf, all_ticked};
ghost use Rattle.match_net.specs.Playing.{sealed_bytes, may_seal, stage_at, sealed_if, round};
ghost use Rattle.match_net.specs.Playing.{is_over};
ghost use Rattle.match_net.specs.Plays.{plays_by};

use crate::order_source::OrderSource;
use crate::player::Player;
use base::NoMemory;
use frame_core::{Ready, Sim, TickAnswer, ready_by};
use game_orders::MAX_FRAMES;
use order_packets::{Up, write_up};
use peer_core::Peer;

/// Appends a report of the frame that was ticked last, unless the player writes no more.
fn report<S: Sim>(sim: &S, frame: u32, quiet: bool, bytes: &mut Vec<u8>) -> Result<(), NoMemory>
    ensures { OnOk result (bytes.new.items ≡ bytes.old.items
        ++ report_bytes quiet frame (S.hash_of sim.now)) }
{
    if quiet {
        return Ok(());
    }
    write_up(
        bytes,
        &Up::Sync {
            frame,
            hash: sim.hash(),
        },
    )
}

/// Ticks the next frame and reports that, if it is ready, and answers whether it is.
fn tick_once<S: Sim>(peer: &mut Peer<S>, quiet: bool, bytes: &mut Vec<u8>) -> Result<bool, NoMemory>
    ensures told { OnOk result (telling peer.new bytes.new.items
        ≡ tick_once (record { after = S.after; hash = S.hash_of }) quiet
        (telling peer.old bytes.old.items)) }
    ensures rests { IfOk result (λ went. RestsIf went (telling peer.old bytes.old.items)
        (telling peer.new bytes.new.items)) }
{
    match peer.tick() {
        TickAnswer::Ticked(frame) => {
            report(peer.sim(), frame, quiet, bytes)?;
            Ok(true)
        }
        TickAnswer::NotYet(_) => Ok(false),
        TickAnswer::Over => Ok(false),
    }
}

/// Ticks every frame that is ready, and reports each.
fn tick_all<S: Sim>(peer: &mut Peer<S>, quiet: bool, bytes: &mut Vec<u8>) -> Result<(), NoMemory>
    ensures { OnOk result (telling peer.new bytes.new.items
        ≡ all_ticked (record { after = S.after; hash = S.hash_of }) quiet
        (telling peer.old bytes.old.items)) }
{
    for _turn in 0..MAX_FRAMES {
        let went = tick_once(peer, quiet, bytes)?;
        if !went {
            return Ok(());
        }
    }
    Ok(())
}

/// Appends the play of one frame of those that a player plays, by its world.
fn seal_one<S: Sim, P: OrderSource<S>>(
    peer: &Peer<S>,
    plays: &P,
    n: usize,
    bytes: &mut Vec<u8>,
) -> Result<(), NoMemory>
    requires there { n < P.frames_of plays.now }
    requires fits { n < 2 ^ 32 }
    ensures { OnOk result (bytes.new.items ≡ bytes.old.items
        ++ up_bytes (orders_packet n (P.orders_of plays.now peer.now.world peer.now.me n))) }
{
    let orders = plays.orders(peer.sim(), peer.me(), n)?;
    write_up(
        bytes,
        &Up::Orders {
            frame: n as u32,
            orders,
        },
    )
}

/// Appends the plays of the frames from this one on and below `upto`.
fn seal_all<S: Sim, P: OrderSource<S>>(
    peer: &Peer<S>,
    plays: &P,
    from: usize,
    upto: usize,
    bytes: &mut Vec<u8>,
) -> Result<(), NoMemory>
    requires there { upto ≤ P.frames_of plays.now }
    requires fits { upto < 2 ^ 32 }
    ensures { OnOk result (bytes.new.items ≡ bytes.old.items
        ++ sealed_bytes (P.orders_of plays.now peer.now.world peer.now.me) from (upto - from)) }
{
    for n in from..upto {
        seal_one(peer, plays, n, bytes)?;
    }
    Ok(())
}

/// How many of its frames a player may seal.
fn may_seal<S: Sim>(peer: &Peer<S>, frames: usize) -> usize
    ensures value { result ≡ may_seal frames peer.now.ticked peer.now.lag }
    ensures there { result ≤ frames }
    ensures fits { result < 2 ^ 32 }
{
    frames.min(peer.ticked() as usize + peer.lag() as usize)
}

/// Appends what a player writes that has ticked all that it can: those of its frames that it may
/// seal, by its world, and its farewell once every one was ticked.
fn seal<S: Sim, P: OrderSource<S>>(
    player: &mut Player<S>,
    plays: &P,
    bytes: &mut Vec<u8>,
) -> Result<(), NoMemory>
    requires { player.old.quiet ≡ false }
    ensures { OnOk result (stage_at player.new.peer player.new.sealed player.new.quiet
        bytes.new.items ≡ sealed_if false (plays_by (P.frames_of plays.now)
        (P.orders_of plays.now)) player.old.sealed (telling player.old.peer bytes.old.items)) }
{
    let frames = plays.frames();
    let upto = may_seal(&player.peer, frames);
    seal_all(&player.peer, plays, player.sealed, upto, bytes)?;
    player.sealed = player.sealed.max(upto);
    if frames <= player.peer.ticked() as usize {
        write_up(bytes, &Up::Bye)?;
        player.quiet = true;
    }
    Ok(())
}

/// Ticks every frame that is ready, and appends what the player writes by that.
pub(crate) fn round<S: Sim, P: OrderSource<S>>(
    player: &mut Player<S>,
    plays: &P,
    bytes: &mut Vec<u8>,
) -> Result<(), NoMemory>
    ensures { OnOk result (stage_at player.new.peer player.new.sealed player.new.quiet
        bytes.new.items ≡ round (record { after = S.after; hash = S.hash_of })
        (plays_by (P.frames_of plays.now) (P.orders_of plays.now))
        (stage_at player.old.peer player.old.sealed player.old.quiet bytes.old.items)) }
{
    tick_all(&mut player.peer, player.quiet, bytes)?;
    if player.quiet {
        return Ok(());
    }
    seal(player, plays, bytes)
}

/// Whether the match is over: the next frame is one before which all clients have left.
pub(crate) fn is_over<S: Sim>(peer: &Peer<S>) -> bool
    ensures { result ≡ is_over peer.now }
{
    match ready_by(peer, peer.ticked()) {
        Ready::Yes => false,
        Ready::NotYet(_) => false,
        Ready::Over => true,
    }
}
