ghost use Rattle.std.specs.Prelude.{◌≡◌, ◌<◌, ◌^◌};
ghost use Rattle.shroud.specs.Spots.{changed};

/// What is kept of one cell for one client.
#[derive(Clone, Copy, Debug, Drop)]
pub(crate) struct Spot {
    /// How many actors of the client see it.
    pub(crate) count: u16,
    /// Whether the client ever saw it.
    pub(crate) explored: bool,
}

impl Spot {
    /// The spot with a count that is more by so many, modulo 2^16, and explored; the same spot
    /// where it is not seen.
    pub(crate) fn changed(self, is_seen: bool, by: u16) -> Spot
        ensures { result ≡ changed is_seen by self }
    {
        if is_seen {
            Spot {
                count: self.count.wrapping_add(by),
                explored: true,
            }
        } else {
            self
        }
    }
}
