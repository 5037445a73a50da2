ghost use Rattle.std.specs.Prelude.{◌≡◌};
ghost use Rattle.drill_words.specs.OrderList.{order_word};

use crate::words::is_text;

/// The first word of an order. With `+` after it the order is queued.
#[derive(Clone, Copy, Debug)]
pub(crate) enum OrderWord {
    /// `move` or `move+`
    Move {
        /// Whether it is queued.
        queued: bool,
    },
    /// `attack` or `attack+`
    Attack {
        /// Whether it is queued.
        queued: bool,
    },
    /// `harvest` or `harvest+`
    Harvest {
        /// Whether it is queued.
        queued: bool,
    },
    /// `stop`
    Stop,
    /// `produce`
    Produce,
    /// `cancel`
    Cancel,
    /// `donate`
    Donate,
    /// `pace`
    Pace,
}

/// The order that a word begins. None where the word is unknown.
#[tactic(auto, unfolding(crate::specs::OrderList::order_word))]
pub(crate) fn order_word(word: &[u8]) -> Option<OrderWord>
    ensures { result ≡ order_word word.now }
{
    if is_text(word, b"move".as_slice()) {
        Some(OrderWord::Move { queued: false })
    } else if is_text(word, b"move+".as_slice()) {
        Some(OrderWord::Move { queued: true })
    } else if is_text(word, b"attack".as_slice()) {
        Some(OrderWord::Attack { queued: false })
    } else if is_text(word, b"attack+".as_slice()) {
        Some(OrderWord::Attack { queued: true })
    } else if is_text(word, b"harvest".as_slice()) {
        Some(OrderWord::Harvest { queued: false })
    } else if is_text(word, b"harvest+".as_slice()) {
        Some(OrderWord::Harvest { queued: true })
    } else if is_text(word, b"stop".as_slice()) {
        Some(OrderWord::Stop)
    } else if is_text(word, b"produce".as_slice()) {
        Some(OrderWord::Produce)
    } else if is_text(word, b"cancel".as_slice()) {
        Some(OrderWord::Cancel)
    } else if is_text(word, b"donate".as_slice()) {
        Some(OrderWord::Donate)
    } else if is_text(word, b"pace".as_slice()) {
        Some(OrderWord::Pace)
    } else {
        None
    }
}
