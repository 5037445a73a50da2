ghost use Rattle.std.specs.Prelude.{◌≡◌, ◌≤◌, IfOk};
ghost use Rattle.drill_words.specs.MatchLine.{match_line_of};

use crate::word_cursor::WordCursor;
use crate::word_fault::WordFault;
use game_orders::{MAX_CLIENTS, MAX_LAG};

/// The first kept line of a drill: `match CLIENTS LAG SEED`.
#[derive(Clone, Copy, Debug)]
pub(crate) struct MatchLine {
    /// The number of clients, 1 to `MAX_CLIENTS`.
    pub clients: u8,
    /// How far a client may seal ahead of its ticked frames, 1 to `MAX_LAG`.
    pub lag: u8,
    /// The seed of the opening world, any `u32`.
    pub seed: u32,
}

/// The match that the words of a line write.
#[tactic(auto, unfolding(crate::specs::MatchLine::match_line_of))]
pub(crate) fn read_match(cursor: &mut WordCursor<'_>) -> Result<MatchLine, WordFault>
    ensures line { result ≡ match_line_of cursor.old }
    ensures least_clients { IfOk result (λ line. 1 ≤ line.clients) }
    ensures most_clients { IfOk result (λ line. line.clients ≤ MAX_CLIENTS) }
    ensures least_lag { IfOk result (λ line. 1 ≤ line.lag) }
    ensures most_lag { IfOk result (λ line. line.lag ≤ MAX_LAG) }
{
    cursor.word(b"match".as_slice())?;
    let clients = cursor.number(1, u32::from(MAX_CLIENTS))?;
    let lag = cursor.number(1, u32::from(MAX_LAG))?;
    let seed = cursor.number(0, u32::MAX)?;
    cursor.end()?;
    Ok(MatchLine {
        clients: clients as u8,
        lag: lag as u8,
        seed,
    })
}
