//! A player's match, from its greeting on.
ghost use Rattle.std.specs.Prelude.{◌≡◌, ◌≤◌, ◌+◌, ◌∷◌, [], ℕ, List, None, Ok, Some, length};
ghost use Rattle.std.specs.Prelude.{IfOk, OnErr};
ghost use Rattle.game_io.specs.SinkState.{SinkState};
ghost use Rattle.game_io.specs.SourceState.{SourceState};
ghost use Rattle.order_packets.specs.declared.down.Down.TheVariants as down;
ghost use Rattle.match_net.specs.declared.play_cause.PlayCause.TheVariants as cause;
ghost use Rattle.match_net.specs.declared.limits.TheConstants.{MAX_PLAY_BYTES};
ghost use Rattle.match_net.specs.Downward.{InStream, Finds};
ghost use Rattle.match_net.specs.PlayMatch.{HasSaid, PlaysAs, PlaysPartly};
ghost use Rattle.match_net.specs.Plays.{plays_by};
ghost use Rattle.match_net.specs.Stages.{greeting_bytes, terms_by, terms_from};

use crate::coming_packet::ComingPacket;
use crate::downward::next_packet;
use crate::order_source::OrderSource;
use crate::play_cause::PlayCause;
use crate::play_end::PlayEnd;
use crate::played::Played;
use crate::playing::{is_match, play_welcomed, unwelcomed, welcomed};
use crate::script::Script;
use base::NoMemory;
use frame_core::Maker;
use game_io::{Sink, Source};
use game_orders::Orders;
use order_packets::{Down, DownFeeder, Up, VERSION, write_up};
use std::alloc::Global;

/// Plays a script over a link: as [`play_match_from`] plays the orders of each of its frames,
/// whatever the world is.
pub fn play_match<M: Maker, I: Source, O: Sink>(
    alloc: Global,
    rules: u64,
    script: &[Orders],
    maker: &M,
    input: &mut I,
    output: &mut O,
) -> Result<Played<M::World>, NoMemory>
    ensures ok { IfOk result (λ played. PlaysAs (terms_by (M.made maker.now) M.World.after
        M.World.hash_of rules script.now) (I.state input.old) (I.state input.new)
        (O.state output.old) (O.state output.new) played.end played.client played.frames
        played.sim) }
    ensures err { OnErr result (PlaysPartly (terms_by (M.made maker.now) M.World.after
        M.World.hash_of rules script.now) (I.state input.old)
        (I.state input.new) (O.state output.old) (O.state output.new)) }
{
    let script = Script { plays: script };
    play_match_from(alloc, rules, &script, maker, input, output)
}

/// Plays over a link what a source orders.
///
/// The player greets the server with the hash of its rules and map. After the welcome and after
/// each entry it ticks every frame that is ready and writes a report of each; then it seals those
/// of its frames that its lag allows, and writes what the source orders for each by the world that
/// the player holds now; then, once each of its frames was ticked, its farewell. After its
/// farewell, or once its own departure has come, it goes on ticking and writes nothing more. It
/// takes the next packet only when this is written.
///
/// `Over` where every client has left and each play before that has come. `Refused` with the code
/// of the server's refusal. `BadLink` with the first of: a fault in a packet's place; a first
/// packet that is neither a refusal nor a welcome to a match that can be, or a later one that is no
/// entry; an entry that is of no client or that contradicts what was kept; the end of the bytes, or
/// of the first [`crate::MAX_PLAY_BYTES`] of them, before the match is over. `Lost` only where the
/// count of faults of the input or the output rose in this call. Out of memory, which the source
/// may be too, is its one error.
pub fn play_match_from<M: Maker, P: OrderSource<M::World>, I: Source, O: Sink>(
    alloc: Global,
    rules: u64,
    plays: &P,
    maker: &M,
    input: &mut I,
    output: &mut O,
) -> Result<Played<M::World>, NoMemory>
    ensures ok { IfOk result (λ played. PlaysAs (terms_from (M.made maker.now) M.World.after
        M.World.hash_of rules (plays_by (P.frames_of plays.now) (P.orders_of plays.now)))
        (I.state input.old) (I.state input.new) (O.state output.old) (O.state output.new)
        played.end played.client played.frames played.sim) }
    ensures err { OnErr result (PlaysPartly (terms_from (M.made maker.now) M.World.after
        M.World.hash_of rules (plays_by (P.frames_of plays.now) (P.orders_of plays.now)))
        (I.state input.old) (I.state input.new) (O.state output.old) (O.state output.new)) }
{
    let mut bytes = Vec::new(alloc);
    let mut feeder = DownFeeder::create(alloc)?;
    let greeting = Up::Hello {
        version: VERSION,
        rules,
    };
    write_up(&mut bytes, &greeting)?;
    match output.put(&bytes) {
        Ok(()) => await_welcome(alloc, plays, maker, &mut feeder, input, &mut bytes, output),
        Err(_) => Ok(unwelcomed(PlayEnd::Lost)),
    }
}

/// Plays after the greeting.
fn await_welcome<M: Maker, P: OrderSource<M::World>, I: Source, O: Sink>(
    alloc: Global,
    plays: &P,
    maker: &M,
    feeder: &mut DownFeeder,
    input: &mut I,
    bytes: &mut Vec<u8>,
    output: &mut O,
) -> Result<Played<M::World>, NoMemory>
    requires fault { feeder.old.fault ≡ None }
    requires few { feeder.old.at + length feeder.old.rest ≤ MAX_PLAY_BYTES }
    ensures ok { (rules : ℕ) (first : SourceState) (before : SinkState) →
        InStream first (I.state input.old) [] feeder.old →
        HasSaid before (O.state output.old) (greeting_bytes rules) →
        IfOk result (λ played. PlaysAs (terms_from (M.made maker.now) M.World.after
        M.World.hash_of rules (plays_by (P.frames_of plays.now) (P.orders_of plays.now))) first
        (I.state input.new) before (O.state output.new) played.end played.client played.frames
        played.sim) }
    ensures err { (rules : ℕ) (first : SourceState) (before : SinkState) →
        InStream first (I.state input.old) [] feeder.old →
        HasSaid before (O.state output.old) (greeting_bytes rules) →
        OnErr result (PlaysPartly (terms_from (M.made maker.now) M.World.after
        M.World.hash_of rules (plays_by (P.frames_of plays.now) (P.orders_of plays.now))) first
        (I.state input.new) before (O.state output.new)) }
{
    match next_packet(feeder, input) {
        Ok(ComingPacket::Packet { at, packet }) => begin(
            alloc, plays, maker, at, &packet, feeder, input, bytes, output,
        ),
        Ok(ComingPacket::Bad { at, cause }) => Ok(unwelcomed(PlayEnd::BadLink { at, cause })),
        Ok(ComingPacket::Lost) => Ok(unwelcomed(PlayEnd::Lost)),
        Err(error) => Err(error),
    }
}

/// Plays by the first packet, which begins at this place.
fn begin<M: Maker, P: OrderSource<M::World>, I: Source, O: Sink>(
    alloc: Global,
    plays: &P,
    maker: &M,
    at: u64,
    packet: &Down,
    feeder: &mut DownFeeder,
    input: &mut I,
    bytes: &mut Vec<u8>,
    output: &mut O,
) -> Result<Played<M::World>, NoMemory>
    requires fault { feeder.old.fault ≡ None }
    requires few { feeder.old.at + length feeder.old.rest ≤ MAX_PLAY_BYTES }
    ensures ok { (rules : ℕ) (first : SourceState) (before : SinkState) (more : List ℕ) →
        InStream first (I.state input.old) (packet.now ∷ []) feeder.old →
        Finds first (I.state input.old) [] at (Ok (Some (packet.now, more))) →
        HasSaid before (O.state output.old) (greeting_bytes rules) →
        IfOk result (λ played. PlaysAs (terms_from (M.made maker.now) M.World.after
        M.World.hash_of rules (plays_by (P.frames_of plays.now) (P.orders_of plays.now))) first
        (I.state input.new) before (O.state output.new) played.end played.client played.frames
        played.sim) }
    ensures err { (rules : ℕ) (first : SourceState) (before : SinkState) (more : List ℕ) →
        InStream first (I.state input.old) (packet.now ∷ []) feeder.old →
        Finds first (I.state input.old) [] at (Ok (Some (packet.now, more))) →
        HasSaid before (O.state output.old) (greeting_bytes rules) →
        OnErr result (PlaysPartly (terms_from (M.made maker.now) M.World.after
        M.World.hash_of rules (plays_by (P.frames_of plays.now) (P.orders_of plays.now))) first
        (I.state input.new) before (O.state output.new)) }
{
    match packet {
        Down::Welcome {
            client,
            clients,
            lag,
            seed,
        } => accept(
            alloc, plays, maker, at, *client, *clients, *lag, *seed, feeder, input, bytes, output,
        ),
        Down::Refused { code } => Ok(unwelcomed(PlayEnd::Refused { code: *code })),
        Down::Entry { .. } => Ok(unwelcomed(bad_welcome(at))),
    }
}

/// Plays by a welcome, which begins at this place.
fn accept<M: Maker, P: OrderSource<M::World>, I: Source, O: Sink>(
    alloc: Global,
    plays: &P,
    maker: &M,
    at: u64,
    client: u8,
    clients: u8,
    lag: u8,
    seed: u32,
    feeder: &mut DownFeeder,
    input: &mut I,
    bytes: &mut Vec<u8>,
    output: &mut O,
) -> Result<Played<M::World>, NoMemory>
    requires fault { feeder.old.fault ≡ None }
    requires few { feeder.old.at + length feeder.old.rest ≤ MAX_PLAY_BYTES }
    ensures ok { (rules : ℕ) (first : SourceState) (before : SinkState) (more : List ℕ) →
        InStream first (I.state input.old) (down.Welcome client clients lag seed ∷ [])
        feeder.old →
        Finds first (I.state input.old) [] at
        (Ok (Some (down.Welcome client clients lag seed, more))) →
        HasSaid before (O.state output.old) (greeting_bytes rules) →
        IfOk result (λ played. PlaysAs (terms_from (M.made maker.now) M.World.after
        M.World.hash_of rules (plays_by (P.frames_of plays.now) (P.orders_of plays.now))) first
        (I.state input.new) before (O.state output.new) played.end played.client played.frames
        played.sim) }
    ensures err { (rules : ℕ) (first : SourceState) (before : SinkState) (more : List ℕ) →
        InStream first (I.state input.old) (down.Welcome client clients lag seed ∷ [])
        feeder.old →
        Finds first (I.state input.old) [] at
        (Ok (Some (down.Welcome client clients lag seed, more))) →
        HasSaid before (O.state output.old) (greeting_bytes rules) →
        OnErr result (PlaysPartly (terms_from (M.made maker.now) M.World.after
        M.World.hash_of rules (plays_by (P.frames_of plays.now) (P.orders_of plays.now))) first
        (I.state input.new) before (O.state output.new)) }
{
    if !is_match(client, clients, lag) {
        return Ok(unwelcomed(bad_welcome(at)));
    }
    match welcomed(alloc, maker, client, clients, lag, seed) {
        Ok(player) => play_welcomed(player, plays, feeder, input, bytes, output),
        Err(error) => Err(error),
    }
}

/// The end by a first packet that does not welcome.
fn bad_welcome(at: u64) -> PlayEnd
    ensures { result ≡ PlayEnd.BadLink at cause.BadWelcome }
{
    PlayEnd::BadLink {
        at,
        cause: PlayCause::BadWelcome,
    }
}
