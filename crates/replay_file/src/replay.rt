ghost use Rattle.std.specs.Prelude.{◌≡◌, []};
ghost use Rattle.replay_file.specs.declared.limits.TheConstants.{VERSION};

use crate::limits::VERSION;
use crate::parts::Parts;
use std::alloc::Global;

/// A replay: what a match was played with, its frames, and marks by which a later run is compared.
#[derive(Drop)]
pub struct Replay {
    /// The version of the file: 1 or 2.
    pub version: u16,
    /// The rules number of the match.
    pub rules: u64,
    /// The seed of the match.
    pub seed: u32,
    /// The number of clients, at least 1.
    pub clients: u8,
    /// The frames and marks, in order.
    pub parts: Parts,
}

impl Replay {
    /// A replay of the version that is written, without parts.
    pub fn new(alloc: Global, rules: u64, seed: u32, clients: u8) -> Replay
        ensures { result ≡ record {
          version = VERSION;
          rules = rules;
          seed = seed;
          clients = clients;
          parts = [];
        } }
    {
        Replay {
            version: VERSION,
            rules,
            seed,
            clients,
            parts: Parts::new(alloc),
        }
    }
}
