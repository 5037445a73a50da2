//! Reads the lines of a script.
ghost use Rattle.std.specs.Prelude.{◌≡◌, ◌<◌, ◌≤◌, true, [], IfOk, MatchResult, Ok, Err};
ghost use Rattle.drill_words.specs.ScriptLine.{script_head_of, script_play_of};
ghost use Rattle.game_orders.specs.declared.limits.TheConstants.{MAX_CLIENTS};

use crate::order_list::take_orders_into;
use crate::script_words::ScriptHead;
use crate::word_cursor::WordCursor;
use crate::word_fault::WordFault;
use game_orders::{MAX_CLIENTS, Orders};

/// The head that the words of a script's first line write. A solo script has one client.
#[tactic(auto, unfolding(crate::specs::ScriptLine::script_head_of))]
pub(crate) fn read_script_head(
    solo: bool,
    cursor: &mut WordCursor<'_>,
) -> Result<ScriptHead, WordFault>
    ensures line { result ≡ script_head_of solo cursor.old }
    ensures least { IfOk result (λ head. 1 ≤ head.clients) }
    ensures most { IfOk result (λ head. head.clients ≤ MAX_CLIENTS) }
    ensures alone { IfOk result (λ head. solo ≡ true → head.clients ≤ 1) }
{
    cursor.word(b"script".as_slice())?;
    let most = if solo { 1 } else { u32::from(MAX_CLIENTS) };
    let clients = cursor.number(1, most)?;
    let seed = cursor.number(0, u32::MAX)?;
    cursor.end()?;
    Ok(ScriptHead {
        clients: clients as u8,
        seed,
    })
}

/// The play that the words of a line write, in a match of so many clients: who plays, and the
/// orders, which are put where there are none.
#[tactic(auto, unfolding(crate::specs::ScriptLine::script_play_of))]
pub(crate) fn read_script_play(
    clients: u8,
    cursor: &mut WordCursor<'_>,
    orders: &mut Orders,
) -> Result<u8, WordFault>
    requires { orders.old ≡ [] }
    ensures line { MatchResult result (λ client. script_play_of clients cursor.old
        ≡ Ok (record { client = client; orders = orders.new }))
        (λ fault. script_play_of clients cursor.old ≡ Err fault) }
    ensures below { IfOk result (λ client. client < clients) }
{
    let client = cursor.client(clients)?;
    take_orders_into(cursor, orders)?;
    cursor.end()?;
    Ok(client)
}
