ghost use Rattle.std.specs.Prelude.{◌≡◌, ◌<◌, length};
ghost use Rattle.game_model.specs.World.{AreClients};
ghost use Rattle.sync_hash.specs.Fnv.{fnv_from, fnv_of};
ghost use Rattle.sync_hash.specs.HashedBytes.{clients_bytes, flag_byte, header_bytes};
ghost use Rattle.sync_hash.specs.HashedBytes.{header_bytes_1, header_with};

use crate::fnv_state::FnvState;
use game_model::Head;

/// The number of the bytes of a head and a number of actors.
pub(crate) fn header_number(head: &Head, actors: u32) -> u64
    requires { AreClients head.now.cash head.now.gone }
    ensures { result ≡ fnv_of (header_bytes head.now actors) }
{
    number_with(&[head.pace], head, actors)
}

/// The number of the bytes of a head and a number of actors in the first version, without the pace.
pub(crate) fn header_number_1(head: &Head, actors: u32) -> u64
    requires { AreClients head.now.cash head.now.gone }
    ensures { result ≡ fnv_of (header_bytes_1 head.now actors) }
{
    number_with(&[], head, actors)
}

/// The number of the bytes of a head, with these bytes for the pace, and a number of actors.
fn number_with(pace: &[u8], head: &Head, actors: u32) -> u64
    requires { AreClients head.now.cash head.now.gone }
    ensures { result ≡ fnv_of (header_with pace.now head.now actors) }
{
    let mut state = FnvState::new();
    state.write_u32(head.tick);
    state.write_u32(head.seed);
    state.write_u64(head.drawn);
    state.write_u32(head.next_id);
    state.write(pace);
    state.write_u8(head.cash.clients());
    write_clients(&mut state, head);
    state.write_u32(actors);
    state.finish()
}

/// Goes on with the cash and the departure flag of each client.
fn write_clients(state: &mut FnvState, head: &Head)
    requires { AreClients head.now.cash head.now.gone }
    ensures { state.new ≡ fnv_from state.old (clients_bytes head.now) }
{
    for c in 0..head.cash.clients() {
        state.write_u32(head.cash.get(c));
        state.write_u8(byte_of(head.gone.get(c)));
    }
}

/// A departure flag as a byte.
fn byte_of(gone: bool) -> u8
    ensures { result ≡ flag_byte gone }
{
    u8::from(gone)
}
