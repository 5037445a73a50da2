//! The places of a receiver's window.
ghost use Rattle.std.specs.Prelude.{◌≡◌, ◌<◌, ◌+◌, ◌≤◌, ◌∷◌, ◌++◌, [], length, Some, None};
ghost use Rattle.std.specs.Prelude.{replicate, slice_set, MatchOption, IfOk};
ghost use Rattle.std.specs.VecDeque.{deque_len, deque_capacity};
ghost use Rattle.datagram_link.specs.Window.{run_of, moved_on};

use crate::limits::WINDOW;
use crate::payload::Payload;
use base::NoMemory;
use std::alloc::Global;
use std::collections::VecDeque;

/// The places of the next numbers, in order, each with its payload where that came.
pub(crate) type Places = VecDeque<Option<Payload>>;

/// Empty places for the whole window.
pub(crate) fn empty_places(alloc: Global) -> Result<Places, NoMemory>
    ensures { IfOk result (λ places. places.items ≡ replicate WINDOW None) }
{
    let mut places = VecDeque::with_capacity(alloc, WINDOW as usize)?;
    for _place in 0..WINDOW {
        places.push_back(None)?;
    }
    Ok(places)
}

/// Puts a payload at a place.
pub(crate) fn put_payload(places: &mut Places, at: usize, payload: Payload)
    requires { at < length places.old.items }
    ensures items { places.new.items ≡ slice_set places.old.items at (Some payload) }
{
    places[at] = Some(payload);
}

/// Moves the window on by one place, where the first has a payload, and hands that out.
fn take_first(places: &mut Places) -> Option<Payload>
    ensures { MatchOption result
        ((run_of places.old.items ≡ []) × (places.new.items ≡ places.old.items))
        (λ payload. (run_of places.old.items ≡ payload ∷ run_of places.new.items)
        × (moved_on places.new.items ≡ moved_on places.old.items)) }
{
    match places.pop_front() {
        None => None,
        Some(None) => {
            places.push_front_reserved(None);
            None
        }
        Some(Some(payload)) => {
            places.push_back_reserved(None);
            Some(payload)
        }
    }
}

/// Moves the window on past all payloads in order, which are added to those that are ready, and
/// answers how many they are. There is room for them.
pub(crate) fn move_on(places: &mut Places, ready: &mut VecDeque<Payload>) -> u32
    requires few { length places.old.items ≤ WINDOW }
    requires room { deque_len ready.old + WINDOW ≤ deque_capacity ready.old }
    ensures count { result ≡ length (run_of places.old.items) }
    ensures places { places.new.items ≡ moved_on places.old.items }
    ensures ready { ready.new.items ≡ ready.old.items ++ run_of places.old.items }
{
    let mut count = 0;
    while let Some(payload) = take_first(places) {
        ready.push_back_reserved(payload);
        count += 1;
    }
    count
}
