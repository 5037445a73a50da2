//! A player's match over a link.
ghost use Rattle.std.specs.Prelude.{◌≡◌, ◌≤◌, ◌+◌, ◌<◌, ℕ, List, None, Some, true, length, IfOk};
ghost use Rattle.std.specs.Prelude.{IfNone, OnErr};
ghost use Rattle.game_io.specs.SinkState.{SinkState};
ghost use Rattle.game_io.specs.SourceState.{SourceState};
ghost use Rattle.match_net.specs.declared.limits.TheConstants.{MAX_PLAY_BYTES};
ghost use Rattle.match_net.specs.PlayMatch.{Shows, HasSaid, PutMeans, ActMeans, PlaySoFar};
ghost use Rattle.match_net.specs.PlayMatch.{PlayBegins, PlaysAs, PlaysPartly, TurnMeans};
ghost use Rattle.match_net.specs.PlayMatch.{MatchMeans, HandlingMeans};
ghost use Rattle.match_net.specs.Playing.{player_at, stage_at, round, is_over};
ghost use Rattle.match_net.specs.Plays.{plays_by};
ghost use Rattle.match_net.specs.Stages.{after_down, is_match, terms_from, welcomed};

use crate::coming_packet::ComingPacket;
use crate::downward::next_packet;
use crate::following::follow;
use crate::order_source::OrderSource;
use crate::play_end::PlayEnd;
use crate::played::Played;
use crate::player::Player;
use crate::player_round::{is_over, round};
use base::NoMemory;
use frame_core::{Maker, Sim};
use game_io::{Sink, Source};
use game_orders::{MAX_CLIENTS, MAX_LAG};
use order_packets::{Down, DownFeeder};
use peer_core::Peer;
use std::alloc::Global;

/// Writes these bytes to a link, and answers that it is lost where it fails.
fn put_bytes<O: Sink>(link: &mut O, bytes: &[u8]) -> Option<PlayEnd>
    ensures { PutMeans (O.state link.old) (O.state link.new) bytes.now result }
{
    if bytes.is_empty() {
        return None;
    }
    match link.put(bytes) {
        Ok(()) => None,
        Err(_) => Some(PlayEnd::Lost),
    }
}

/// Does what a player does after a packet, writes it to the link, and answers how the match ends
/// with that, if it does.
fn act<S: Sim, P: OrderSource<S>, O: Sink>(
    player: &mut Player<S>,
    plays: &P,
    bytes: &mut Vec<u8>,
    link: &mut O,
) -> Result<Option<PlayEnd>, NoMemory>
    ensures acts { IfOk result (λ answer. (first : SinkState) (said : List ℕ) →
        HasSaid first (O.state link.old) said →
        ActMeans said (round (record { after = S.after; hash = S.hash_of })
        (plays_by (P.frames_of plays.now) (P.orders_of plays.now))
        (stage_at player.old.peer player.old.sealed player.old.quiet said))
        (player_at player.new.peer player.new.sealed player.new.quiet) first (O.state link.new)
        answer) }
    ensures err { OnErr result (O.state link.new ≡ O.state link.old) }
{
    bytes.clear();
    round(player, plays, bytes)?;
    if let Some(end) = put_bytes(link, bytes) {
        return Ok(Some(end));
    }
    if is_over(&player.peer) {
        return Ok(Some(PlayEnd::Over));
    }
    Ok(None)
}

/// Follows a packet that begins at this place, and answers how the match ends with that, if it
/// does.
fn act_on<S: Sim, P: OrderSource<S>, O: Sink>(
    player: &mut Player<S>,
    plays: &P,
    at: u64,
    packet: &Down,
    bytes: &mut Vec<u8>,
    link: &mut O,
) -> Result<Option<PlayEnd>, NoMemory>
    ensures handles { IfOk result (λ answer. (first : SinkState) (said : List ℕ) →
        HasSaid first (O.state link.old) said →
        HandlingMeans (record { after = S.after; hash = S.hash_of })
        (plays_by (P.frames_of plays.now) (P.orders_of plays.now))
        (after_down (player_at player.old.peer player.old.sealed player.old.quiet) packet.now)
        (player_at player.old.peer player.old.sealed player.old.quiet) said at
        (player_at player.new.peer player.new.sealed player.new.quiet) first (O.state link.new)
        answer) }
    ensures err { OnErr result (O.state link.new ≡ O.state link.old) }
{
    match follow(player, packet)? {
        Some(cause) => Ok(Some(PlayEnd::BadLink { at, cause })),
        None => act(player, plays, bytes, link),
    }
}

/// Plays on with the next packet, and answers how the match ends with that, if it does.
fn play_once<S: Sim, P: OrderSource<S>, I: Source, O: Sink>(
    player: &mut Player<S>,
    plays: &P,
    feeder: &mut DownFeeder,
    input: &mut I,
    bytes: &mut Vec<u8>,
    output: &mut O,
) -> Result<Option<PlayEnd>, NoMemory>
    requires fault { feeder.old.fault ≡ None }
    requires few { feeder.old.at + length feeder.old.rest ≤ MAX_PLAY_BYTES }
    ensures moves { IfOk result (λ answer. IfNone answer (feeder.new.fault ≡ None)) }
    ensures few { IfOk result (λ answer. IfNone answer
        (feeder.new.at + length feeder.new.rest ≤ MAX_PLAY_BYTES)) }
    ensures on { IfOk result (λ answer. IfNone answer (feeder.old.at < feeder.new.at)) }
    ensures means { (made : ℕ → ℕ → S) (rules : ℕ) (first : SourceState) (before : SinkState) →
        PlaySoFar (terms_from made S.after S.hash_of rules
        (plays_by (P.frames_of plays.now) (P.orders_of plays.now))) first
        (I.state input.old) before (O.state output.old)
        (player_at player.old.peer player.old.sealed player.old.quiet) feeder.old →
        TurnMeans (terms_from made S.after S.hash_of rules
        (plays_by (P.frames_of plays.now) (P.orders_of plays.now))) first
        (I.state input.new) before (O.state output.new)
        (player_at player.new.peer player.new.sealed player.new.quiet) feeder.new result }
{
    match next_packet(feeder, input) {
        Ok(ComingPacket::Packet { at, packet }) => act_on(
            player, plays, at, &packet, bytes, output,
        ),
        Ok(ComingPacket::Bad { at, cause }) => Ok(Some(PlayEnd::BadLink { at, cause })),
        Ok(ComingPacket::Lost) => Ok(Some(PlayEnd::Lost)),
        Err(error) => Err(error),
    }
}

/// Plays on to the end of the match, packet by packet.
fn play_rest<S: Sim, P: OrderSource<S>, I: Source, O: Sink>(
    player: &mut Player<S>,
    plays: &P,
    feeder: &mut DownFeeder,
    input: &mut I,
    bytes: &mut Vec<u8>,
    output: &mut O,
) -> Result<PlayEnd, NoMemory>
    requires fault { feeder.old.fault ≡ None }
    requires few { feeder.old.at + length feeder.old.rest ≤ MAX_PLAY_BYTES }
    ensures means { (made : ℕ → ℕ → S) (rules : ℕ) (first : SourceState) (before : SinkState) →
        PlaySoFar (terms_from made S.after S.hash_of rules
        (plays_by (P.frames_of plays.now) (P.orders_of plays.now))) first
        (I.state input.old) before (O.state output.old)
        (player_at player.old.peer player.old.sealed player.old.quiet) feeder.old →
        MatchMeans (terms_from made S.after S.hash_of rules
        (plays_by (P.frames_of plays.now) (P.orders_of plays.now))) first
        (I.state input.new) before (O.state output.new)
        (player_at player.new.peer player.new.sealed player.new.quiet) result }
{
    'turns: loop {
        match play_once(player, plays, feeder, input, bytes, output) {
            Ok(None) => {}
            Ok(Some(end)) => return Ok(end),
            Err(error) => return Err(error),
        }
    }
}

/// Plays on to the end of the match, after the player was welcomed.
fn play_on<S: Sim, P: OrderSource<S>, I: Source, O: Sink>(
    player: &mut Player<S>,
    plays: &P,
    feeder: &mut DownFeeder,
    input: &mut I,
    bytes: &mut Vec<u8>,
    output: &mut O,
) -> Result<PlayEnd, NoMemory>
    requires fault { feeder.old.fault ≡ None }
    requires few { feeder.old.at + length feeder.old.rest ≤ MAX_PLAY_BYTES }
    ensures means { (made : ℕ → ℕ → S) (rules : ℕ) (first : SourceState) (before : SinkState) →
        PlayBegins (terms_from made S.after S.hash_of rules
        (plays_by (P.frames_of plays.now) (P.orders_of plays.now))) first
        (I.state input.old) before (O.state output.old)
        (player_at player.old.peer player.old.sealed player.old.quiet) feeder.old →
        MatchMeans (terms_from made S.after S.hash_of rules
        (plays_by (P.frames_of plays.now) (P.orders_of plays.now))) first
        (I.state input.new) before (O.state output.new)
        (player_at player.new.peer player.new.sealed player.new.quiet) result }
{
    match act(player, plays, bytes, output) {
        Ok(None) => play_rest(player, plays, feeder, input, bytes, output),
        Ok(Some(end)) => Ok(end),
        Err(error) => Err(error),
    }
}

/// Plays a match to its end with a player that was welcomed.
pub(crate) fn play_welcomed<S: Sim, P: OrderSource<S>, I: Source, O: Sink>(
    player: Player<S>,
    plays: &P,
    feeder: &mut DownFeeder,
    input: &mut I,
    bytes: &mut Vec<u8>,
    output: &mut O,
) -> Result<Played<S>, NoMemory>
    requires fault { feeder.old.fault ≡ None }
    requires few { feeder.old.at + length feeder.old.rest ≤ MAX_PLAY_BYTES }
    ensures ok { (made : ℕ → ℕ → S) (rules : ℕ) (first : SourceState) (before : SinkState) →
        PlayBegins (terms_from made S.after S.hash_of rules
        (plays_by (P.frames_of plays.now) (P.orders_of plays.now))) first
        (I.state input.old) before (O.state output.old)
        (player_at player.peer player.sealed player.quiet) feeder.old →
        IfOk result (λ played. PlaysAs (terms_from made S.after S.hash_of rules
        (plays_by (P.frames_of plays.now) (P.orders_of plays.now))) first
        (I.state input.new) before (O.state output.new) played.end played.client
        played.frames played.sim) }
    ensures err { (made : ℕ → ℕ → S) (rules : ℕ) (first : SourceState) (before : SinkState) →
        PlayBegins (terms_from made S.after S.hash_of rules
        (plays_by (P.frames_of plays.now) (P.orders_of plays.now))) first
        (I.state input.old) before (O.state output.old)
        (player_at player.peer player.sealed player.quiet) feeder.old →
        OnErr result (PlaysPartly (terms_from made S.after S.hash_of rules
        (plays_by (P.frames_of plays.now) (P.orders_of plays.now))) first
        (I.state input.new) before (O.state output.new)) }
{
    let mut player = player;
    match play_on(&mut player, plays, feeder, input, bytes, output) {
        Ok(end) => Ok(played(player, end)),
        Err(error) => Err(error),
    }
}

/// A match of a player that was not welcomed.
pub(crate) fn unwelcomed<S: Sim>(end: PlayEnd) -> Played<S>
    ensures { (result.end ≡ end) × Shows None result.client result.frames result.sim }
{
    Played {
        end,
        client: 0,
        frames: 0,
        sim: None,
    }
}

/// A match of a player that was welcomed.
fn played<S: Sim>(player: Player<S>, end: PlayEnd) -> Played<S>
    ensures { (result.end ≡ end)
        × Shows (Some (player_at player.peer player.sealed player.quiet)) result.client
        result.frames result.sim }
{
    let Player {
        peer,
        sealed: _,
        quiet: _,
    } = player;
    Played {
        end,
        client: peer.me(),
        frames: peer.ticked(),
        sim: Some(peer.into_sim()),
    }
}

/// Whether a welcome names a match that can be, and a client of it.
pub(crate) fn is_match(client: u8, clients: u8, lag: u8) -> bool
    ensures { result ≡ is_match client clients lag }
{
    client < clients && clients <= MAX_CLIENTS && 1 <= lag && lag <= MAX_LAG
}

/// The player that a welcome makes.
pub(crate) fn welcomed<M: Maker>(
    alloc: Global,
    maker: &M,
    client: u8,
    clients: u8,
    lag: u8,
    seed: u32,
) -> Result<Player<M::World>, NoMemory>
    requires { is_match client clients lag ≡ true }
    ensures { IfOk result (λ player. player_at player.peer player.sealed player.quiet
        ≡ welcomed (M.made maker.now) client clients lag seed) }
{
    let sim = maker.make(alloc, seed, clients)?;
    Ok(Player {
        peer: Peer::create(alloc, client, clients, lag, sim)?,
        sealed: 0,
        quiet: false,
    })
}
