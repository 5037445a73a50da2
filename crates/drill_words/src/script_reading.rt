//! Reads scripts.
ghost use Rattle.std.specs.Prelude.{◌≡◌, ◌≢◌, ◌<◌, ◌≤◌, true, [], length, IfOk, MatchResult};
ghost use Rattle.std.specs.Prelude.{Ok, Err};
ghost use Rattle.drill_words.specs.Drill.{ReturnsRead};
ghost use Rattle.drill_words.specs.Script.{play_on, scripts_on, script_plain, read_script_of};
ghost use Rattle.game_orders.specs.declared.limits.TheConstants.{MAX_CLIENTS};

use crate::drill_fault::DrillFault;
use crate::kept_lines::KeptLines;
use crate::limits::{MAX_DRILL_BYTES, MAX_EVENTS};
use crate::order_list::clear;
use crate::reading::fault_at;
use crate::script_line::{read_script_head, read_script_play};
use crate::scripts::Scripts;
use crate::word_cursor::WordCursor;
use game_orders::Orders;
use std::alloc::Global;

/// Reads a script from at most [`MAX_DRILL_BYTES`] bytes: the seed of a match, and what each client
/// plays.
///
/// Lines and words are those of a drill ([`crate::read_drill`]). The first kept line is `script
/// CLIENTS SEED`, and each further one is `C ORDERS`, the next play of client `C`. A solo script
/// has one client.
///
/// An `Err` is the first fault: that of the earliest line, and in it that of the first word from
/// the left. They come as in a drill; `BadNumber` also at the clients of a solo script that aren't
/// 1, and `TooManyEvents` at a play after [`MAX_EVENTS`] others, before its words. So no client
/// has more plays than a match has frames. `NoMemory` is out of memory, and may take the place of
/// any answer.
#[tactic(auto, unfolding(crate::specs::Script::read_script_of, crate::specs::Script::script_of))]
pub fn read_script(alloc: Global, bytes: &[u8], solo: bool) -> Result<(u32, Scripts), DrillFault>
    requires { length bytes.now ≤ MAX_DRILL_BYTES }
    ensures script { ReturnsRead script_plain result (read_script_of solo bytes.now) }
    ensures alone { IfOk result (λ read. solo ≡ true → length read.1 ≤ 1) }
{
    let mut lines = KeptLines::of(bytes);
    let Some((number, mut cursor)) = lines.next() else {
        return Err(DrillFault::BadWord { line: 0 });
    };
    let head = read_script_head(solo, &mut cursor).map_err(|fault| fault_at(fault, number))?;
    let scripts = read_plays(alloc, head.clients, &mut lines)?;
    Ok((head.seed, scripts))
}

/// The plays of all lines that are left.
fn read_plays(alloc: Global, clients: u8, lines: &mut KeptLines<'_>) -> Result<Scripts, DrillFault>
    requires least { 1 ≤ clients }
    requires most { clients ≤ MAX_CLIENTS }
    ensures plays { ReturnsRead (λ scripts. scripts) result (scripts_on clients lines.old) }
    ensures clients { IfOk result (λ scripts. length scripts ≡ clients) }
{
    let Ok(mut scripts) = Scripts::create(alloc, clients) else {
        return Err(DrillFault::NoMemory);
    };
    let mut before: u32 = 0;
    let mut orders = Orders::empty();
    while let Some((number, cursor)) = lines.next() {
        clear(&mut orders);
        let client = read_play_on(clients, before, number, cursor, &mut orders)?;
        let Ok(()) = scripts.push_lent(client, &orders) else {
            return Err(DrillFault::NoMemory);
        };
        before += 1;
    }
    Ok(scripts)
}

/// The play of a line that follows so many others: who plays, and the orders, which are put where
/// there are none.
#[tactic(auto, unfolding(crate::specs::Script::play_on))]
fn read_play_on(
    clients: u8,
    before: u32,
    number: u32,
    mut cursor: WordCursor<'_>,
    orders: &mut Orders,
) -> Result<u8, DrillFault>
    requires { orders.old ≡ [] }
    ensures line { MatchResult result (λ client.
        play_on clients before (record { number = number; words = cursor.entry })
        ≡ Ok (record { client = client; orders = orders.new }))
        (λ fault. play_on clients before (record { number = number; words = cursor.entry })
        ≡ Err fault) }
    ensures room { IfOk result (λ _. before ≢ MAX_EVENTS) }
    ensures below { IfOk result (λ client. client < clients) }
{
    if before == MAX_EVENTS {
        return Err(DrillFault::TooManyEvents { line: number });
    }
    read_script_play(clients, &mut cursor, orders).map_err(|fault| fault_at(fault, number))
}
