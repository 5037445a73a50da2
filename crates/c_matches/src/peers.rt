ghost use Rattle.std.specs.Prelude.{◌≡◌, ◌≢◌, ◌<◌, ◌≤◌, None, Some, IfErr, IfOk, OnOk};
ghost use Rattle.game_orders.specs.declared.limits.TheConstants.{MAX_CLIENTS, MAX_LAG};
ghost use Rattle.c_objects.specs.declared.code.TheConstants.{NO_MEMORY, OK};
ghost use Rattle.c_matches.specs.Answers.{only, told_in};
ghost use Rattle.c_matches.specs.Packets.{down_in};
ghost use Rattle.c_matches.specs.Peers.{code_with, create_code, created, deliver_answer, delivered};
ghost use Rattle.c_matches.specs.Peers.{down_answer, down_delivered, entry_answer, entry_delivered};
ghost use Rattle.c_matches.specs.Peers.{made_by, made_with, receipt_answer, tick_answer_of, ticked};
ghost use Rattle.c_matches.specs.Ticks.{ticked_answer};

use crate::answer::Answer;
use crate::packet_reading::packet_in;
use crate::terms::{CTerms, Terms, terms_in};
use base::NoMemory;
use c_objects::{
    BAD_ARGUMENT, BAD_BYTES, CONFLICT, IGNORED, Kept, NO_FRAME, NO_MEMORY, NOT_YET, OK, OVER,
    Object, PAST, REPEAT, WRONG_OBJECT,
};
use c_worlds::made_of;
use frame_core::{Maker, TickAnswer};
use game_orders::Entry;
use order_packets::Down;
use peer_core::{Peer, Receipt};
use setup_files::Made;
use std::alloc::Global;
use tick_core::Game;

/// The peer of a match of these terms, over the opening world.
fn fresh_peer(alloc: Global, made: &Made, terms: Terms) -> Result<Box<Kept>, NoMemory>
    requires own { terms.me < terms.clients }
    requires most { terms.clients ≤ MAX_CLIENTS }
    requires least_lag { 1 ≤ terms.lag }
    requires most_lag { terms.lag ≤ MAX_LAG }
    ensures { IfOk result (λ kept. Some kept.value ≡ made_by made.now (Some terms)) }
{
    let game = made.maker.make(alloc, terms.seed, terms.clients)?;
    let peer = Peer::create(alloc, terms.me, terms.clients, terms.lag, game)?;
    Ok(Box::new(alloc, Kept::Peer(peer))?)
}

/// The peer of a match of these terms, or the code for why there is none.
fn make_peer(alloc: Global, made: &Made, terms: &CTerms) -> Result<Box<Kept>, u32>
    ensures code { IfErr result (λ code. code ≢ NO_MEMORY
        → code ≡ code_with (Some made.now) terms.now) }
    ensures ok { OnOk result (code_with (Some made.now) terms.now ≡ OK) }
    ensures made { IfOk result (λ kept. Some kept.value ≡ made_with (Some made.now) terms.now) }
    ensures refused { IfErr result (λ code. code ≢ NO_MEMORY
        → made_with (Some made.now) terms.now ≡ None) }
{
    let Some(terms) = terms_in(terms) else {
        return Err(BAD_ARGUMENT);
    };
    match fresh_peer(alloc, made, terms) {
        Ok(kept) => Ok(kept),
        Err(_) => Err(NO_MEMORY),
    }
}

/// Makes an empty object the peer of a client of a match, over a setup that was read.
/// `BAD_ARGUMENT` where no match has these terms.
pub fn peer_create(object: &mut Object, setup: &mut Object, alloc: Global, terms: &CTerms) -> u32
    ensures setup { setup.new.held.held ≡ setup.old.held.held }
    ensures code { result ≢ NO_MEMORY
        → result ≡ create_code object.old.held.held setup.old.held.held terms.now }
    ensures after { result ≢ NO_MEMORY
        → object.new.held.held ≡ created object.old.held.held setup.old.held.held terms.now }
    ensures memory { result ≡ NO_MEMORY → object.new.held.held ≡ object.old.held.held }
{
    if !object.is_empty() {
        return WRONG_OBJECT;
    }
    let Some(kept) = setup.take(alloc) else {
        return WRONG_OBJECT;
    };
    let made = match made_of(&kept) {
        Some(made) => make_peer(alloc, made, terms),
        None => Err(WRONG_OBJECT),
    };
    setup.put(kept);
    match made {
        Ok(kept) => {
            object.put(kept);
            OK
        }
        Err(code) => code,
    }
}

/// The answer to an entry with this receipt.
fn answer_of(receipt: Receipt) -> Answer
    ensures answer { result ≡ receipt_answer receipt }
    ensures memory { result.code ≢ NO_MEMORY }
{
    match receipt {
        Receipt::Kept => Answer::only(OK),
        Receipt::Repeat => Answer::only(REPEAT),
        Receipt::Conflict => Answer::only(CONFLICT),
        Receipt::Past(frame) => Answer::telling(PAST, frame),
        Receipt::Beyond => Answer::only(NO_FRAME),
    }
}

/// Delivers an entry.
fn deliver_entry(peer: &mut Peer<Game>, client: u8, frame: u32, entry: &Entry) -> Answer
    ensures answer { result.code ≢ NO_MEMORY
        → result ≡ entry_answer client frame entry.now peer.old }
    ensures after { result.code ≢ NO_MEMORY
        → peer.new ≡ entry_delivered client frame entry.now peer.old }
    ensures memory { result.code ≡ NO_MEMORY → peer.new ≡ peer.old }
    ensures quiet { result.code ≡ NO_MEMORY → result ≡ only NO_MEMORY }
{
    if client >= peer.clients() {
        return Answer::only(BAD_BYTES);
    }
    match peer.receive(client, frame, entry) {
        Ok(receipt) => answer_of(receipt),
        Err(_) => Answer::only(NO_MEMORY),
    }
}

/// Delivers a packet, as [`peer_deliver`] does.
fn deliver(peer: &mut Peer<Game>, bytes: &[u8]) -> Answer
    ensures answer { result.code ≢ NO_MEMORY
        → result ≡ down_answer (down_in bytes.now) peer.old }
    ensures after { result.code ≢ NO_MEMORY
        → peer.new ≡ down_delivered (down_in bytes.now) peer.old }
    ensures memory { result.code ≡ NO_MEMORY → peer.new ≡ peer.old }
    ensures quiet { result.code ≡ NO_MEMORY → result ≡ only NO_MEMORY }
{
    match packet_in::<Down>(bytes) {
        Some(
            Down::Entry {
                client,
                frame,
                entry,
            },
        ) => deliver_entry(peer, client, frame, &entry),
        Some(_) => Answer::only(IGNORED),
        None => Answer::only(BAD_BYTES),
    }
}

/// Delivers a packet of the server to a peer, in any order. Only `OK` changes anything: the entry is
/// new, and kept. `REPEAT`: it is there. `CONFLICT`: another one is. `PAST`: it contradicts what is
/// kept at the frame that is told, a departure before it, or, where it is a departure, the least
/// entry after it. `NO_FRAME`: no match has such a frame. `IGNORED`: the packet is no entry.
/// `BAD_BYTES` also where the match has no such client.
pub fn peer_deliver(object: &mut Object, alloc: Global, bytes: &[u8], told: &mut u32) -> u32
    ensures code { result ≢ NO_MEMORY
        → result ≡ (deliver_answer bytes.now object.old.held.held).code }
    ensures told { result ≢ NO_MEMORY
        → told.new ≡ told_in (deliver_answer bytes.now object.old.held.held) told.old }
    ensures after { result ≢ NO_MEMORY
        → object.new.held.held ≡ delivered bytes.now object.old.held.held }
    ensures memory { result ≡ NO_MEMORY → object.new.held.held ≡ object.old.held.held }
    ensures same { result ≡ NO_MEMORY → told.new ≡ told.old }
{
    let Some(mut kept) = object.take(alloc) else {
        return WRONG_OBJECT;
    };
    let answer = match &mut *kept {
        Kept::Peer(peer) => deliver(peer, bytes),
        _ => Answer::only(WRONG_OBJECT),
    };
    object.put(kept);
    answer.tell(told)
}

/// What a call tells of a tick.
pub(crate) fn of_tick(answer: TickAnswer) -> Answer
    ensures answer { result ≡ ticked_answer answer }
    ensures memory { result.code ≢ NO_MEMORY }
{
    match answer {
        TickAnswer::Ticked(frame) => Answer::telling(OK, frame),
        TickAnswer::NotYet(client) => Answer::telling(NOT_YET, u32::from(client)),
        TickAnswer::Over => Answer::only(OVER),
    }
}

/// Ticks a peer's next frame. `OK`: the frame is told, by which its world made a step. `NOT_YET`:
/// the least client is told whose entry is missing. `OVER`: all have departed.
pub fn peer_tick(object: &mut Object, alloc: Global, told: &mut u32) -> u32
    ensures code { result ≡ (tick_answer_of object.old.held.held).code }
    ensures told { told.new ≡ told_in (tick_answer_of object.old.held.held) told.old }
    ensures after { object.new.held.held ≡ ticked object.old.held.held }
{
    let Some(mut kept) = object.take(alloc) else {
        return WRONG_OBJECT;
    };
    let answer = match &mut *kept {
        Kept::Peer(peer) => of_tick(peer.tick()),
        _ => Answer::only(WRONG_OBJECT),
    };
    object.put(kept);
    answer.tell(told)
}
