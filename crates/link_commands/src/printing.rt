//! What is printed of a match that was played over a link.
ghost use Rattle.std.specs.Prelude.{◌≡◌, ◌≤◌, []};
ghost use Rattle.match_net.specs.Plays.{plays_by};
ghost use Rattle.match_net.specs.Stages.{bot_terms, terms_by, terms_from};
ghost use Rattle.link_commands.specs.Links.{MadePrints};
ghost use Rattle.link_commands.specs.Plays.{PlaysBy};

use crate::play_fault::PlayFault;
use crate::play_text::{lost_answer, played_answer};
use crate::playing::play_on_link;
use base::NoMemory;
use bots::Bots;
use command_answers::{Answer, OUT_OF_MEMORY, print_last};
use frame_core::Maker;
use game_io::{Net, Sink};
use game_orders::Orders;
use match_net::{Bot, OrderSource, Script};
use std::alloc::Global;

/// Plays a script at the server of this address, over the first link of the net, and prints how
/// that ended; the status is returned. The player's rules and map have this number, and its worlds
/// are those of the maker.
pub fn play_over<M: Maker, K: Sink, N: Net>(
    alloc: Global,
    at: &str,
    rules: u64,
    script: &[Orders],
    maker: &M,
    out: &mut K,
    net: &mut N,
) -> u8
    requires { (N.state net.old).given ≡ [] }
    ensures plays { PlaysBy M.World.hash_of M.World.summary_of
        (terms_by (M.made maker.now) M.World.after M.World.hash_of rules script.now) result
        (N.state net.old) (N.state net.new) (K.state out.old) (K.state out.new) }
    ensures later { (K.state out.old).faults ≤ (K.state out.new).faults }
{
    let script = Script { plays: script };
    play_orders_over(alloc, at, rules, &script, maker, out, net)
}

/// Plays so many frames at the server of this address as [`play_over`] does, each by a rule and the
/// world that the player holds when it seals the frame.
pub fn play_bot_over<M: Maker, B: Bots<M::World>, K: Sink, N: Net>(
    alloc: Global,
    at: &str,
    rules: u64,
    rule: &B,
    frames: u32,
    maker: &M,
    out: &mut K,
    net: &mut N,
) -> u8
    requires { (N.state net.old).given ≡ [] }
    ensures plays { PlaysBy M.World.hash_of M.World.summary_of
        (bot_terms (M.made maker.now) M.World.after M.World.hash_of M.World.clients_of
        (B.orders_of rule.now) rules frames) result
        (N.state net.old) (N.state net.new) (K.state out.old) (K.state out.new) }
    ensures later { (K.state out.old).faults ≤ (K.state out.new).faults }
{
    let bot = Bot { rule, frames };
    play_orders_over(alloc, at, rules, &bot, maker, out, net)
}

/// Plays what a source orders, in the same way.
fn play_orders_over<M: Maker, P: OrderSource<M::World>, K: Sink, N: Net>(
    alloc: Global,
    at: &str,
    rules: u64,
    plays: &P,
    maker: &M,
    out: &mut K,
    net: &mut N,
) -> u8
    requires { (N.state net.old).given ≡ [] }
    ensures plays { PlaysBy M.World.hash_of M.World.summary_of
        (terms_from (M.made maker.now) M.World.after M.World.hash_of rules
        (plays_by (P.frames_of plays.now) (P.orders_of plays.now))) result
        (N.state net.old) (N.state net.new) (K.state out.old) (K.state out.new) }
    ensures later { (K.state out.old).faults ≤ (K.state out.new).faults }
{
    match play_on_link(alloc, at, rules, plays, maker, net) {
        Ok(played) => print_made(played_answer(alloc, &played), out),
        Err(PlayFault::Net) => print_made(lost_answer(alloc), out),
        Err(PlayFault::NoMemory) => OUT_OF_MEMORY,
    }
}

/// Prints the text of an answer that writes no file, if there was memory to make it.
pub fn print_made<K: Sink>(answer: Result<Answer<'_>, NoMemory>, out: &mut K) -> u8
    ensures prints { MadePrints answer.entry result (K.state out.old) (K.state out.new) }
    ensures later { (K.state out.old).faults ≤ (K.state out.new).faults }
{
    match answer {
        Ok(answer) => print_last(out, &answer.text, answer.status),
        Err(_) => OUT_OF_MEMORY,
    }
}
