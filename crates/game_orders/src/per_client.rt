ghost use Rattle.std.specs.Prelude.{◌≡◌, ◌<◌, ◌≤◌, length, replicate, Some, slice_get, slice_set};

use crate::limits::{MAX_CLIENTS, PER_CLIENT_ROOM};
use arrayvec::ArrayVec;
use std::marker::Model;

/// One value for each client of a match, by rising number, held in place. There are 1 to
/// [`MAX_CLIENTS`] clients.
#[derive(Debug, Drop)]
pub struct PerClient<T> {
    held: ArrayVec<T, PER_CLIENT_ROOM>,
}

impl<T> Model for PerClient<T> {
    ghost use Rattle.std.specs.Prelude.{List, ◌≤◌, length};
    ghost use Rattle.game_orders.specs.declared.limits.TheConstants.{MAX_CLIENTS};

    ghost Value = { List T };

    ghost view = { λ each. each.held.items };

    ghost invariant = { λ each. (1 ≤ length each.held.items) × (length each.held.items ≤
        MAX_CLIENTS) };
}

impl<T: Copy + Default> PerClient<T> {
    /// The same value for each of 1 to [`MAX_CLIENTS`] clients.
    pub fn create(clients: u8, value: T) -> PerClient<T>
        requires least { 1 ≤ clients }
        requires most { clients ≤ MAX_CLIENTS }
        ensures { result ≡ replicate clients value }
    {
        let mut held = ArrayVec::new();
        for _client in 0..clients {
            held.push(value);
        }
        PerClient { held }
    }

    /// The number of clients, 1 to [`MAX_CLIENTS`].
    pub fn clients(&self) -> u8
        ensures value { result ≡ length self.now }
        ensures least { 1 ≤ result }
        ensures most { result ≤ MAX_CLIENTS }
    {
        self.held.len() as u8
    }

    /// The value of client `c`, which is below the number of clients.
    pub fn get(&self, c: u8) -> T
        requires { c < length self.now }
        ensures { slice_get self.now c ≡ Some result }
    {
        self.held.as_slice()[usize::from(c)]
    }

    /// Sets the value of client `c`, which is below the number of clients. The other values stay.
    pub fn set(&mut self, c: u8, value: T)
        requires { c < length self.old }
        ensures { self.new ≡ slice_set self.old c value }
    {
        self.held.as_mut_slice()[usize::from(c)] = value;
    }

    /// The value of each client, by rising number.
    pub fn as_slice(&self) -> &[T]
        ensures value { result.now ≡ self.now }
        ensures least { 1 ≤ length result.now }
        ensures most { length result.now ≤ MAX_CLIENTS }
    {
        let _held = &self.held;
        self.held.as_slice()
    }

    /// The same values once more.
    pub fn copy(&self) -> PerClient<T>
        ensures { result ≡ self.now }
    {
        let mut held = ArrayVec::new();
        for value in self.held.as_slice() {
            held.push(*value);
        }
        PerClient { held }
    }
}
