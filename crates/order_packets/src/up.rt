ghost use Rattle.std.specs.Prelude.{◌≡◌};

use game_orders::Orders;

/// A packet from a client to the server.
#[derive(Debug, Drop)]
pub enum Up {
    /// The client's greeting.
    Hello {
        /// The version of the packets that it speaks, any `u16`.
        version: u16,
        /// The hash of its rules, any `u64`.
        rules: u64,
    },
    /// The client's play for a frame.
    Orders {
        /// The frame, any `u32`.
        frame: u32,
        /// Its orders, perhaps none.
        orders: Orders,
    },
    /// A report of the client's world.
    Sync {
        /// The last frame that it ticked, as it says: any `u32`.
        frame: u32,
        /// The hash of its world after that frame, as it says: any `u64`.
        hash: u64,
    },
    /// The client leaves the match.
    Bye,
}

impl Up {
    /// The same packet once more.
    pub fn copy(&self) -> Up
        ensures { result ≡ self.now }
    {
        match self {
            Up::Hello { version, rules } => Up::Hello {
                version: *version,
                rules: *rules,
            },
            Up::Orders { frame, orders } => Up::Orders {
                frame: *frame,
                orders: orders.copy(),
            },
            Up::Sync { frame, hash } => Up::Sync {
                frame: *frame,
                hash: *hash,
            },
            Up::Bye => Up::Bye,
        }
    }
}

impl PartialEq for Up {
    ghost use Rattle.order_packets.specs.Up.{same_up};
    ghost use Rattle.order_packets.specs.UpEquality.{up_decides};
    ghost use Rattle.std.specs.Cmp.{decided, partial_equiv_from_equiv};

    ghost eq = { same_up };

    ghost laws = { partial_equiv_from_equiv (decided same_up up_decides) };

    fn eq(&self, other: &Up) -> bool {
        match (self, other) {
            (
                Up::Hello { version, rules },
                Up::Hello {
                    version: other_version,
                    rules: other_rules,
                },
            ) => version == other_version && rules == other_rules,
            (
                Up::Orders { frame, orders },
                Up::Orders {
                    frame: other_frame,
                    orders: other_orders,
                },
            ) => frame == other_frame && orders == other_orders,
            (
                Up::Sync { frame, hash },
                Up::Sync {
                    frame: other_frame,
                    hash: other_hash,
                },
            ) => frame == other_frame && hash == other_hash,
            (Up::Bye, Up::Bye) => true,
            _ => false,
        }
    }
}

impl Eq for Up {
    ghost use Rattle.order_packets.specs.Up.{same_up};
    ghost use Rattle.order_packets.specs.UpEquality.{up_decides};
    ghost use Rattle.std.specs.Cmp.{decided};

    ghost laws = { decided same_up up_decides };
}
