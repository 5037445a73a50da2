ghost use Rattle.order_packets.specs.PacketBytes.{FitsUp, FitsDown};

use crate::down::Down;
use crate::up::Up;
use game_orders::{Entry, orders_fit};

/// A packet to the server that code holds has numbers that fit their fields. The call does nothing.
pub fn up_fits(p: &Up)
    ensures { FitsUp p.now }
{
    // each number is read so that the proof has the range of its type
    match p {
        Up::Hello { version, rules } => {
            let _version = *version;
            let _rules = *rules;
        }
        Up::Orders { frame, orders } => {
            let _frame = *frame;
            orders_fit(orders);
        }
        Up::Sync { frame, hash } => {
            let _frame = *frame;
            let _hash = *hash;
        }
        Up::Bye => {}
    }
}

/// A packet to a client that code holds has numbers that fit their fields. The call does nothing.
pub fn down_fits(p: &Down)
    ensures { FitsDown p.now }
{
    // each number is read so that the proof has the range of its type
    match p {
        Down::Welcome {
            client,
            clients,
            lag,
            seed,
        } => {
            let _client = *client;
            let _clients = *clients;
            let _lag = *lag;
            let _seed = *seed;
        }
        Down::Refused { code } => {
            let _code = *code;
        }
        Down::Entry {
            client,
            frame,
            entry: Entry::Play(orders),
        } => {
            let _client = *client;
            let _frame = *frame;
            orders_fit(orders);
        }
        Down::Entry {
            client,
            frame,
            entry: Entry::Leave,
        } => {
            let _client = *client;
            let _frame = *frame;
        }
    }
}
