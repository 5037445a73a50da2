ghost use Rattle.std.specs.Prelude.{◌≡◌, ◌<◌, ◌≤◌, IfSome};
ghost use Rattle.game_orders.specs.declared.limits.TheConstants.{MAX_CLIENTS, MAX_LAG};
ghost use Rattle.c_matches.specs.Terms.{terms_in};

use game_orders::{MAX_CLIENTS, MAX_LAG};

/// Under which a client plays a match, as C holds it.
#[repr(C)]
#[derive(Drop)]
pub struct CTerms {
    /// The number of the client, from 0.
    pub me: u32,
    /// The number of clients, 1 to 16.
    pub clients: u32,
    /// How many frames a client may seal ahead of its ticked ones, 1 to 64.
    pub lag: u32,
    /// The seed of the match.
    pub seed: u32,
}

/// The same, where a match has such terms.
#[derive(Clone, Copy)]
pub struct Terms {
    /// The number of the client.
    pub me: u8,
    /// The number of clients.
    pub clients: u8,
    /// The lag in frames.
    pub lag: u8,
    /// The seed.
    pub seed: u32,
}

/// The terms, if a match has such.
pub(crate) fn terms_in(terms: &CTerms) -> Option<Terms>
    ensures value { result ≡ terms_in terms.now }
    ensures own { IfSome result (λ terms. terms.me < terms.clients) }
    ensures most { IfSome result (λ terms. terms.clients ≤ MAX_CLIENTS) }
    ensures least_lag { IfSome result (λ terms. 1 ≤ terms.lag) }
    ensures most_lag { IfSome result (λ terms. terms.lag ≤ MAX_LAG) }
{
    if terms.me >= terms.clients || terms.clients > u32::from(MAX_CLIENTS) {
        return None;
    }
    if terms.lag == 0 || terms.lag > u32::from(MAX_LAG) {
        return None;
    }
    Some(Terms {
        me: terms.me as u8,
        clients: terms.clients as u8,
        lag: terms.lag as u8,
        seed: terms.seed,
    })
}
