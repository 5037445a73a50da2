ghost use Rattle.std.specs.Prelude.{◌≡◌, ◌≤◌, ◌+◌, length, IfOk};
ghost use Rattle.std.specs.List.{All};
ghost use Rattle.game_orders.specs.declared.limits.TheConstants.{MAX_CLIENTS};
ghost use Rattle.game_model.specs.declared.limits.TheConstants.{MAX_CASH};
ghost use Rattle.game_model.specs.World.{AreClients};
ghost use Rattle.game_save.specs.Fields.{Reads};
ghost use Rattle.game_save.specs.WorldReading.{IsHeadAfter, cash_in, clients_after, gone_in};
ghost use Rattle.game_save.specs.WorldReading.{clients_in, head_in, no_clients};

use crate::clients::Clients;
use crate::save_cursor::SaveCursor;
use crate::save_fault::SaveFault;
use game_model::{Gone, Head, MAX_CASH, MAX_DRAWS, MAX_PACE, Purse};
use game_orders::MAX_CLIENTS;

/// The end of the numbers of four bytes.
const U32_END: u64 = 0x1_0000_0000;

/// Reads the cash of a client.
fn read_cash(c: &mut SaveCursor<'_>) -> Result<u32, SaveFault>
    ensures reads { Reads cash_in c.old c.new result }
    ensures most { IfOk result (λ cash. cash ≤ MAX_CASH) }
{
    c.u32_in(0, u64::from(MAX_CASH) + 1)
}

/// Reads whether a client has departed.
#[tactic(auto, unfolding(crate::specs::WorldReading::gone_in))]
fn read_gone(c: &mut SaveCursor<'_>) -> Result<bool, SaveFault>
    ensures { Reads gone_in c.old c.new result }
{
    let flag = c.u8_in(0, 2)?;
    Ok(flag != 0)
}

/// Reads the cash of each of so many clients, and whether it has departed.
fn read_each_client(c: &mut SaveCursor<'_>, count: u8) -> Result<Clients, SaveFault>
    requires least { 1 ≤ count }
    requires most { count ≤ MAX_CLIENTS }
    ensures reads { Reads (clients_after no_clients count) c.old c.new result }
    ensures cash { IfOk result (λ clients. length clients.cash ≡ count) }
    ensures gone { IfOk result (λ clients. length clients.gone ≡ count) }
    ensures most { IfOk result (λ clients. All (λ cash. cash ≤ MAX_CASH) clients.cash) }
{
    let mut clients = Clients {
        cash: Purse::create(count, 0),
        gone: Gone::create(count, false),
    };
    for client in 0..count {
        let cash = read_cash(c)?;
        let gone = read_gone(c)?;
        clients.cash.set(client, cash);
        clients.gone.set(client, gone);
    }
    Ok(clients)
}

/// Reads the clients: how many, and each.
#[tactic(auto, unfolding(crate::specs::WorldReading::clients_in))]
fn read_clients(c: &mut SaveCursor<'_>) -> Result<Clients, SaveFault>
    ensures reads { Reads clients_in c.old c.new result }
    ensures valid { IfOk result (λ clients. AreClients clients.cash clients.gone) }
    ensures most { IfOk result (λ clients. All (λ cash. cash ≤ MAX_CASH) clients.cash) }
{
    let count = c.u8_in(1, u64::from(MAX_CLIENTS) + 1)?;
    read_each_client(c, count)
}

/// Reads the head of a world after so many frames.
#[tactic(auto, unfolding(crate::specs::WorldReading::head_in))]
pub(crate) fn read_head(c: &mut SaveCursor<'_>, frames: u32) -> Result<Head, SaveFault>
    ensures reads { Reads (head_in frames) c.old c.new result }
    ensures valid { IfOk result (IsHeadAfter frames) }
{
    let frames = u64::from(frames);
    let tick = c.u32_in(frames, u64::from(MAX_PACE) * frames + 1)?;
    let seed = c.read_u32()?;
    let drawn = c.u64_in(0, MAX_DRAWS * frames + 1)?;
    let next_id = c.u32_in(1, U32_END)?;
    let pace = c.u8_in(1, u64::from(MAX_PACE) + 1)?;
    let clients = read_clients(c)?;
    Ok(Head {
        tick,
        seed,
        drawn,
        next_id,
        pace,
        cash: clients.cash,
        gone: clients.gone,
    })
}
