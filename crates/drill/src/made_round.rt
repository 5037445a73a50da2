//! The rounds of the made drill.
ghost use Rattle.std.specs.Prelude.{◌≡◌, ◌+◌, ◌*◌, ◌<◌, ◌≤◌, OnOk};
ghost use Rattle.drill.specs.Draft.{size};
ghost use Rattle.drill.specs.MadeRound.{sealing_in, told_in, with_seals, with_some_packets_up};
ghost use Rattle.drill.specs.MadeRound.{with_packets_up_again, with_some_entries_to};
ghost use Rattle.drill.specs.MadeRound.{with_entries_to, with_some_entries, with_entries_again};
ghost use Rattle.drill.specs.MadeRound.{with_ticks, with_reports, with_reports_up, with_plays};
ghost use Rattle.drill.specs.MadeRound.{with_echoes, with_checks, with_departure, with_round};

use crate::draft::Draft;
use crate::made_limits::{DEPARTURE_ROUND, ECHOES_SIZE, MADE_CLIENTS, ROUND_SIZE};
use base::NoMemory;
use drill_words::{Event, MAX_EVENTS};

/// A round, whose number is that of its frame.
#[tactic(auto, unfolding(crate::specs::MadeRound::with_round))]
pub(crate) fn add_round(draft: &mut Draft, round: u32) -> Result<(), NoMemory>
    requires { size draft.old + ROUND_SIZE ≤ MAX_EVENTS }
    ensures made { OnOk result (draft.new ≡ with_round round draft.old) }
    ensures few { OnOk result (size draft.new ≤ size draft.old + ROUND_SIZE) }
{
    add_departure(draft, round)?;
    add_plays(draft, sealing_in(round))?;
    add_echoes(draft, told_in(round), round)?;
    draft.add(Event::TickServer)?;
    add_checks(draft)
}

/// How many clients seal in a round: the last one no more once it has left.
fn sealing_in(round: u32) -> u8
    ensures value { result ≡ sealing_in round }
    ensures most { result ≤ MADE_CLIENTS }
{
    if round < DEPARTURE_ROUND {
        MADE_CLIENTS
    } else {
        MADE_CLIENTS - 1
    }
}

/// How many clients have an entry in a round: those that seal, and in the round of its departure
/// the one that leaves.
fn told_in(round: u32) -> u8
    ensures value { result ≡ told_in round }
    ensures most { result ≤ MADE_CLIENTS }
{
    if round == DEPARTURE_ROUND {
        MADE_CLIENTS
    } else {
        sealing_in(round)
    }
}

/// The server lets the last client leave before one of the rounds.
#[tactic(auto, unfolding(crate::specs::MadeRound::with_departure))]
fn add_departure(draft: &mut Draft, round: u32) -> Result<(), NoMemory>
    ensures made { OnOk result (draft.new ≡ with_departure round draft.old) }
    ensures few { OnOk result (size draft.new ≤ size draft.old + 1) }
{
    if round != DEPARTURE_ROUND {
        return Ok(());
    }
    draft.add(Event::DropClient {
        client: MADE_CLIENTS - 1,
    })
}

/// The clients seal, and their packets reach the server, some of them twice.
#[tactic(auto, unfolding(crate::specs::MadeRound::with_plays))]
fn add_plays(draft: &mut Draft, sealing: u8) -> Result<(), NoMemory>
    requires most { sealing ≤ MADE_CLIENTS }
    requires room { size draft.old + 9 * MADE_CLIENTS ≤ MAX_EVENTS }
    ensures made { OnOk result (draft.new ≡ with_plays sealing draft.old) }
    ensures few { OnOk result (size draft.new ≤ size draft.old + 9 * MADE_CLIENTS) }
{
    let first = draft.sent();
    add_seals(draft, sealing)?;
    add_some_packets_up(draft, first, sealing)?;
    add_packets_up_again(draft, first, sealing)
}

/// Each client seals.
#[tactic(auto, unfolding(crate::specs::MadeRound::with_seals))]
fn add_seals(draft: &mut Draft, sealing: u8) -> Result<(), NoMemory>
    requires most { sealing ≤ MADE_CLIENTS }
    requires room { size draft.old + 6 * MADE_CLIENTS ≤ MAX_EVENTS }
    ensures made { OnOk result (draft.new ≡ with_seals sealing draft.old) }
    ensures few { OnOk result (size draft.new ≤ size draft.old + 6 * sealing) }
{
    for client in 0..sealing {
        draft.add_seal(client)?;
    }
    Ok(())
}

/// The packets from `first` on, one of each client, reach the server by rising client, but some are
/// lost.
#[tactic(auto, unfolding(crate::specs::MadeRound::with_some_packets_up))]
fn add_some_packets_up(draft: &mut Draft, first: u32, sealing: u8) -> Result<(), NoMemory>
    requires most { sealing ≤ MADE_CLIENTS }
    requires numbers { first ≤ MAX_EVENTS }
    requires room { size draft.old + 2 * MADE_CLIENTS ≤ MAX_EVENTS }
    ensures made { OnOk result (draft.new ≡ with_some_packets_up first sealing draft.old) }
    ensures few { OnOk result (size draft.new ≤ size draft.old + 2 * sealing) }
{
    for client in 0..sealing {
        draft.add_unless_lost(Event::Up {
            packet: first + u32::from(client),
        })?;
    }
    Ok(())
}

/// All of them reach it by falling client.
#[tactic(auto, unfolding(crate::specs::MadeRound::with_packets_up_again))]
fn add_packets_up_again(draft: &mut Draft, first: u32, sealing: u8) -> Result<(), NoMemory>
    requires most { sealing ≤ MADE_CLIENTS }
    requires numbers { first ≤ MAX_EVENTS }
    ensures made { OnOk result (draft.new ≡ with_packets_up_again first sealing draft.old) }
    ensures few { OnOk result (size draft.new ≤ size draft.old + sealing) }
{
    for client in (0..sealing).rev() {
        draft.add(Event::Up {
            packet: first + u32::from(client),
        })?;
    }
    Ok(())
}

/// The entries of the frame reach the peers, some of them twice. The peers tick before the lost
/// ones come, and once more after that.
#[tactic(auto, unfolding(crate::specs::MadeRound::with_echoes))]
fn add_echoes(draft: &mut Draft, told: u8, frame: u32) -> Result<(), NoMemory>
    requires most { told ≤ MADE_CLIENTS }
    requires room { size draft.old + ECHOES_SIZE ≤ MAX_EVENTS }
    ensures made { OnOk result (draft.new ≡ with_echoes told frame draft.old) }
    ensures few { OnOk result (size draft.new ≤ size draft.old + ECHOES_SIZE) }
{
    add_some_entries(draft, told, frame)?;
    add_ticks(draft)?;
    add_entries_again(draft, told, frame)?;
    add_ticks(draft)
}

/// Some entries reach the peers by rising number.
#[tactic(auto, unfolding(crate::specs::MadeRound::with_some_entries))]
fn add_some_entries(draft: &mut Draft, told: u8, frame: u32) -> Result<(), NoMemory>
    requires most { told ≤ MADE_CLIENTS }
    requires room { size draft.old + 2 * MADE_CLIENTS * MADE_CLIENTS ≤ MAX_EVENTS }
    ensures made { OnOk result (draft.new ≡ with_some_entries told frame draft.old) }
    ensures few { OnOk result (size draft.new ≤ size draft.old + 2 * MADE_CLIENTS * MADE_CLIENTS) }
{
    for peer in 0..MADE_CLIENTS {
        add_some_entries_to(draft, told, frame, peer)?;
    }
    Ok(())
}

/// The entries of the frame reach a peer by rising client, but some are lost.
#[tactic(auto, unfolding(crate::specs::MadeRound::with_some_entries_to))]
fn add_some_entries_to(draft: &mut Draft, told: u8, frame: u32, peer: u8) -> Result<(), NoMemory>
    requires own { peer < MADE_CLIENTS }
    requires most { told ≤ MADE_CLIENTS }
    requires room { size draft.old + 2 * MADE_CLIENTS ≤ MAX_EVENTS }
    ensures made { OnOk result (draft.new ≡ with_some_entries_to told frame peer draft.old) }
    ensures few { OnOk result (size draft.new ≤ size draft.old + 2 * MADE_CLIENTS) }
{
    for client in 0..told {
        draft.add_unless_lost(Event::Down {
            peer,
            client,
            frame,
        })?;
    }
    Ok(())
}

/// All entries reach the peers by falling number.
#[tactic(auto, unfolding(crate::specs::MadeRound::with_entries_again))]
fn add_entries_again(draft: &mut Draft, told: u8, frame: u32) -> Result<(), NoMemory>
    requires most { told ≤ MADE_CLIENTS }
    ensures made { OnOk result (draft.new ≡ with_entries_again told frame draft.old) }
    ensures few { OnOk result (size draft.new ≤ size draft.old + MADE_CLIENTS * MADE_CLIENTS) }
{
    for peer in (0..MADE_CLIENTS).rev() {
        add_entries_to(draft, told, frame, peer)?;
    }
    Ok(())
}

/// All entries of the frame reach a peer by falling client.
#[tactic(auto, unfolding(crate::specs::MadeRound::with_entries_to))]
fn add_entries_to(draft: &mut Draft, told: u8, frame: u32, peer: u8) -> Result<(), NoMemory>
    requires own { peer < MADE_CLIENTS }
    requires most { told ≤ MADE_CLIENTS }
    ensures made { OnOk result (draft.new ≡ with_entries_to told frame peer draft.old) }
    ensures few { OnOk result (size draft.new ≤ size draft.old + MADE_CLIENTS) }
{
    for client in (0..told).rev() {
        draft.add(Event::Down {
            peer,
            client,
            frame,
        })?;
    }
    Ok(())
}

/// Each peer ticks.
#[tactic(auto, unfolding(crate::specs::MadeRound::with_ticks))]
fn add_ticks(draft: &mut Draft) -> Result<(), NoMemory>
    ensures made { OnOk result (draft.new ≡ with_ticks draft.old) }
    ensures few { OnOk result (size draft.new ≤ size draft.old + MADE_CLIENTS) }
{
    for peer in 0..MADE_CLIENTS {
        draft.add(Event::Tick { peer })?;
    }
    Ok(())
}

/// The peers report, and their reports reach the server.
#[tactic(auto, unfolding(crate::specs::MadeRound::with_checks))]
fn add_checks(draft: &mut Draft) -> Result<(), NoMemory>
    requires { size draft.old + 3 * MADE_CLIENTS ≤ MAX_EVENTS }
    ensures made { OnOk result (draft.new ≡ with_checks draft.old) }
    ensures few { OnOk result (size draft.new ≤ size draft.old + 3 * MADE_CLIENTS) }
{
    let first = draft.sent();
    add_reports(draft)?;
    add_reports_up(draft, first)
}

/// Each peer reports.
#[tactic(auto, unfolding(crate::specs::MadeRound::with_reports))]
fn add_reports(draft: &mut Draft) -> Result<(), NoMemory>
    requires { size draft.old + 2 * MADE_CLIENTS ≤ MAX_EVENTS }
    ensures made { OnOk result (draft.new ≡ with_reports draft.old) }
    ensures few { OnOk result (size draft.new ≤ size draft.old + 2 * MADE_CLIENTS) }
{
    for peer in 0..MADE_CLIENTS {
        draft.add_packet(Event::Report { peer })?;
    }
    Ok(())
}

/// The reports, which are the packets from `first` on, reach the server.
#[tactic(auto, unfolding(crate::specs::MadeRound::with_reports_up))]
fn add_reports_up(draft: &mut Draft, first: u32) -> Result<(), NoMemory>
    requires { first ≤ MAX_EVENTS }
    ensures made { OnOk result (draft.new ≡ with_reports_up first draft.old) }
    ensures few { OnOk result (size draft.new ≤ size draft.old + MADE_CLIENTS) }
{
    for peer in 0..MADE_CLIENTS {
        draft.add(Event::Up {
            packet: first + u32::from(peer),
        })?;
    }
    Ok(())
}
