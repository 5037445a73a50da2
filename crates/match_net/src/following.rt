//! What a packet makes of a player.
ghost use Rattle.std.specs.Prelude.{◌<◌, IfOk};
ghost use Rattle.peer_core.specs.Delivery.{delivery_of};
ghost use Rattle.peer_core.specs.Receipt.{receipt_of};
ghost use Rattle.match_net.specs.Playing.{player_at, after_receipt, FollowMeans};
ghost use Rattle.match_net.specs.Stages.{after_down};

use crate::play_cause::PlayCause;
use crate::player::Player;
use base::NoMemory;
use frame_core::Sim;
use game_orders::Entry;
use order_packets::Down;
use peer_core::Receipt;

/// Delivers the entry of client `c` at frame `n`, and answers why it does not go on, if so.
fn deliver<S: Sim>(
    player: &mut Player<S>,
    c: u8,
    n: u32,
    entry: &Entry,
) -> Result<Option<PlayCause>, NoMemory>
    requires { c < player.old.peer.clients }
    ensures { IfOk result (λ answer. FollowMeans
        (after_receipt (receipt_of (delivery_of player.old.peer.arrived c n entry.now))
        (player_at player.old.peer player.old.sealed player.old.quiet) c n entry.now)
        (player_at player.old.peer player.old.sealed player.old.quiet)
        (player_at player.new.peer player.new.sealed player.new.quiet) answer) }
{
    match player.peer.receive(c, n, entry)? {
        Receipt::Kept => {}
        Receipt::Repeat => {}
        Receipt::Conflict => return Ok(Some(PlayCause::Conflict)),
        Receipt::Past(_) => return Ok(Some(PlayCause::Past)),
        Receipt::Beyond => return Ok(Some(PlayCause::Beyond)),
    }
    if c == player.peer.me() && !entry.is_play() {
        player.quiet = true;
    }
    Ok(None)
}

/// Follows a packet after the first one, and answers why the player does not go on, if so.
pub(crate) fn follow<S: Sim>(
    player: &mut Player<S>,
    packet: &Down,
) -> Result<Option<PlayCause>, NoMemory>
    ensures { IfOk result (λ answer. FollowMeans
        (after_down (player_at player.old.peer player.old.sealed player.old.quiet) packet.now)
        (player_at player.old.peer player.old.sealed player.old.quiet)
        (player_at player.new.peer player.new.sealed player.new.quiet) answer) }
{
    match packet {
        Down::Welcome { .. } => Ok(Some(PlayCause::BadWelcome)),
        Down::Refused { .. } => Ok(Some(PlayCause::BadWelcome)),
        Down::Entry {
            client,
            frame,
            entry,
        } => {
            if *client >= player.peer.clients() {
                return Ok(Some(PlayCause::BadClient));
            }
            deliver(player, *client, *frame, entry)
        }
    }
}
