ghost use Rattle.std.specs.Prelude.{◌≡◌};
ghost use Rattle.bot_player.specs.KindFlags.{flag_of, no_flags, with_flag};

use rule_traits::MAX_KINDS;
use std::marker::Model;

/// The flags of a word.
const PER_WORD: u16 = 64;

/// The words of all flags.
const WORDS: usize = (MAX_KINDS / PER_WORD) as usize;

/// A flag for each number that a kind can have, 64 to a word, held in place.
#[derive(Drop)]
pub(crate) struct KindFlags {
    words: [u64; WORDS],
}

impl Model for KindFlags {
    ghost use Rattle.std.specs.Prelude.{List, Bool};
    ghost use Rattle.bot_player.specs.KindFlags.{flags_in};

    ghost Value = { List Bool };

    ghost view = { λ f. flags_in f.words };
}

impl KindFlags {
    /// No flag is set.
    pub(crate) fn none() -> KindFlags
        ensures { result ≡ no_flags }
    {
        KindFlags { words: [0; WORDS] }
    }

    /// Whether the flag of a kind is set. A number of [`MAX_KINDS`] or more has none.
    pub(crate) fn get(&self, kind: u16) -> bool
        ensures { result ≡ flag_of self.now kind }
    {
        kind < MAX_KINDS && (self.words[usize::from(kind / PER_WORD)] >> (kind % PER_WORD)) & 1 == 1
    }

    /// Sets the flag of a kind, if it is to be set and the number has one. The others stay.
    pub(crate) fn set_if(&mut self, kind: u16, on: bool)
        ensures { self.new ≡ with_flag self.old kind on }
    {
        if on && kind < MAX_KINDS {
            self.words[usize::from(kind / PER_WORD)] |= 1 << (kind % PER_WORD);
        }
    }
}
