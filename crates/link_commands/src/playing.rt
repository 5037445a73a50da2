//! A match that is played over a link.
ghost use Rattle.std.specs.Prelude.{◌≡◌, [], IfOk, IfErr};
ghost use Rattle.match_net.specs.Plays.{plays_by};
ghost use Rattle.match_net.specs.Stages.{terms_from};
ghost use Rattle.link_commands.specs.PlayedLink.{NotPlayed, PlayedLink};

use crate::play_fault::PlayFault;
use frame_core::Maker;
use game_io::Net;
use match_net::{OrderSource, Played, play_match_from};
use std::alloc::Global;

/// Dials the server at this address, plays over the link what a source orders, and hands the link
/// back to the net, which has given none before. The player's rules and map have this number, and
/// its worlds are those of the maker. `Net` where there is no link.
pub(crate) fn play_on_link<M: Maker, P: OrderSource<M::World>, N: Net>(
    alloc: Global,
    at: &str,
    rules: u64,
    plays: &P,
    maker: &M,
    net: &mut N,
) -> Result<Played<M::World>, PlayFault>
    requires { (N.state net.old).given ≡ [] }
    ensures ok { IfOk result (λ played. PlayedLink (terms_from (M.made maker.now) M.World.after
        M.World.hash_of rules (plays_by (P.frames_of plays.now) (P.orders_of plays.now)))
        (N.state net.old) (N.state net.new) played.end played.client played.frames played.sim) }
    ensures err { IfErr result (NotPlayed (terms_from (M.made maker.now) M.World.after
        M.World.hash_of rules (plays_by (P.frames_of plays.now) (P.orders_of plays.now)))
        (N.state net.old) (N.state net.new)) }
{
    let Ok((mut input, mut output)) = net.dial(at) else {
        return Err(PlayFault::Net);
    };
    let played = play_match_from(alloc, rules, plays, maker, &mut input, &mut output);
    net.take_back(0, input, output);
    Ok(played?)
}
