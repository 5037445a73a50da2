//! Which transport an address is of.
ghost use Rattle.std.specs.Prelude.{◌≡◌, ◌≢◌, ◌++◌, List, ℕ, MatchOption};
ghost use Rattle.datagram_net.specs.Addresses.{udp_prefix};

/// What follows `udp:` in an address that begins with that. None exactly where it does not.
pub(crate) fn udp_part(at: &str) -> Option<&str>
    ensures { MatchOption result ((rest : List ℕ) → at.now ≢ udp_prefix ++ rest)
        (λ rest. at.now ≡ udp_prefix ++ rest.now) }
{
    at.strip_prefix("udp:")
}
