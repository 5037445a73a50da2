use crate::ask::Ask;
use base::NoMemory;
use lru::LruCache;
use std::alloc::Global;
use std::num::NonZeroUsize;
use world_units::CPos;

/// How many fields are kept at most.
pub const FIELDS: usize = 32;

/// How many fields are kept while no question comes back whose field was given up: where each is
/// asked once, more would only take memory.
const FIRST_FIELDS: usize = 4;

/// How many questions without a field are remembered.
const PAST_ASKS: usize = 64;

/// What a field is found by.
#[derive(Clone, Copy, PartialEq, Eq, Hash)]
struct Key {
    goal: CPos,
    clear: u8,
    road: u8,
    rough: u8,
    water: u8,
}

/// The places of the fields that were used last.
#[derive(Drop)]
pub(crate) struct Index {
    /// How many fields are kept at most.
    most: usize,
    places: LruCache<Key, usize>,
    /// The last questions whose field was given up.
    past: LruCache<Key, ()>,
}

impl Index {
    /// An index of at most so many places. Out of memory is its only error.
    pub(crate) fn create(alloc: Global, most: usize) -> Result<Index, NoMemory> {
        let cap = NonZeroUsize::new(most).unwrap_or(NonZeroUsize::MIN);
        let past = NonZeroUsize::new(PAST_ASKS).unwrap_or(NonZeroUsize::MIN);
        Ok(Index {
            most,
            places: LruCache::new(alloc, cap)?,
            past: LruCache::new(alloc, past)?,
        })
    }

    /// Forgets all places.
    pub(crate) fn clear(&mut self) {
        self.places.clear();
        self.past.clear();
    }

    /// Whether a field has a place.
    pub(crate) fn has(&self, ask: &Ask) -> bool {
        self.places.contains(&key_of(ask))
    }

    /// The place of a field: the one that it has, else one that is not taken, else that of the
    /// field that was used longest ago. It is past the last one where memory ran out.
    pub(crate) fn place(&mut self, ask: &Ask) -> usize {
        match self.find(ask) {
            Some(place) => place,
            None => self.taken(key_of(ask)),
        }
    }

    /// The place that a field has, which is used now.
    pub(crate) fn find(&mut self, ask: &Ask) -> Option<usize> {
        match self.places.get(&key_of(ask)) {
            Some(place) => Some(*place),
            None => None,
        }
    }

    /// Takes a place for a field.
    fn taken(&mut self, key: Key) -> usize {
        let place = if self.has_room(&key) {
            self.places.len()
        } else {
            self.given_up()
        };
        match self.places.put(key, place) {
            Ok(_) => place,
            Err(_) => self.most,
        }
    }

    /// Whether one more field is to be kept: there are few, or this one was given up not long ago.
    fn has_room(&mut self, key: &Key) -> bool {
        let kept = self.places.len();
        kept < self.most && (kept < FIRST_FIELDS || self.past.pop(key).is_some())
    }

    /// The place of the field that was used longest ago, which is given up.
    fn given_up(&mut self) -> usize {
        match self.places.pop_lru() {
            Some((key, place)) => {
                // a question that isn't remembered is only asked anew
                let _remembered = self.past.put(key, ());
                place
            }
            None => self.most,
        }
    }
}

/// What the field for a question is found by.
fn key_of(ask: &Ask) -> Key {
    Key {
        goal: ask.goal,
        clear: ask.costs.clear,
        road: ask.costs.road,
        rough: ask.costs.rough,
        water: ask.costs.water,
    }
}
