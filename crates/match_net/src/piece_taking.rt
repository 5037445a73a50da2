//! How bytes go from a link to a feeder.
ghost use Rattle.std.specs.Prelude.{◌≡◌, ◌<◌, ◌≤◌, ◌+◌, ◌^◌, None, length, IfOk, OnErr};
ghost use Rattle.match_net.specs.declared.limits.TheConstants.{PIECE_BYTES};
ghost use Rattle.match_net.specs.PieceTaking.{Counts, TakesPiece, TookAtMost};

use crate::limits::PIECE_BYTES;
use crate::piece::Piece;
use base::NoMemory;
use game_io::Source;
use order_packets::{Feeder, Packet};

/// Takes one piece of at most `room` bytes from a link, and feeds it. Out of memory is its one
/// error; then what was taken is lost.
pub(crate) fn take_piece<P: Packet, I: Source>(
    feeder: &mut Feeder<P>,
    link: &mut I,
    room: usize,
) -> Result<Piece, NoMemory>
    requires room { 0 < room }
    requires place { feeder.old.at + length feeder.old.rest + room < 2 ^ 64 }
    requires fault { feeder.old.fault ≡ None }
    ensures ok { IfOk result (λ piece. TakesPiece room (I.state link.old) (I.state link.new)
        feeder.old feeder.new piece) }
    ensures err { OnErr result (TookAtMost room (I.state link.old) (I.state link.new)) }
{
    let mut taken = 0;
    take_counted(feeder, link, room, &mut taken)
}

/// Takes one piece as [`take_piece`] does, and adds the number of its bytes to a count.
pub(crate) fn take_counted<P: Packet, I: Source>(
    feeder: &mut Feeder<P>,
    link: &mut I,
    room: usize,
    taken: &mut u64,
) -> Result<Piece, NoMemory>
    requires room { 0 < room }
    requires place { feeder.old.at + length feeder.old.rest + room < 2 ^ 64 }
    requires fault { feeder.old.fault ≡ None }
    requires counts { taken.old + PIECE_BYTES < 2 ^ 64 }
    ensures ok { IfOk result (λ piece. (takes : TakesPiece room (I.state link.old)
        (I.state link.new) feeder.old feeder.new piece) × Counts taken.old taken.new takes.taken) }
    ensures err { OnErr result ((took : TookAtMost room (I.state link.old) (I.state link.new))
        × Counts taken.old taken.new took.taken) }
{
    let mut bytes = [0; PIECE_BYTES];
    let most = room.min(PIECE_BYTES);
    feed_from(feeder, link, &mut bytes[..most], taken)
}

/// Takes one piece from a link into this place, which is not empty, feeds it and counts its bytes.
fn feed_from<P: Packet, I: Source>(
    feeder: &mut Feeder<P>,
    link: &mut I,
    place: &mut [u8],
    taken: &mut u64,
) -> Result<Piece, NoMemory>
    requires room { 0 < length place.old }
    requires short { length place.old ≤ PIECE_BYTES }
    requires place { feeder.old.at + length feeder.old.rest + length place.old < 2 ^ 64 }
    requires fault { feeder.old.fault ≡ None }
    requires counts { taken.old + PIECE_BYTES < 2 ^ 64 }
    ensures ok { IfOk result (λ piece. (takes : TakesPiece (length place.old) (I.state link.old)
        (I.state link.new) feeder.old feeder.new piece) × Counts taken.old taken.new takes.taken) }
    ensures err { OnErr result ((took : TookAtMost (length place.old) (I.state link.old)
        (I.state link.new)) × Counts taken.old taken.new took.taken) }
{
    match link.take(place) {
        Ok(0) => Ok(Piece::End),
        Ok(count) => {
            *taken += count as u64;
            match feeder.feed(&place[..count]) {
                Ok(()) => Ok(Piece::Some),
                Err(error) => Err(error),
            }
        }
        Err(_) => Ok(Piece::Lost),
    }
}
