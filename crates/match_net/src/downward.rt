//! How packets come down a player's link.
ghost use Rattle.std.specs.Prelude.{◌≡◌, ◌≤◌, ◌+◌, ◌-◌, List, None, Some, length, IfOk, OnErr};
ghost use Rattle.game_io.specs.SourceState.{SourceState};
ghost use Rattle.order_packets.specs.declared.down.Down.{Down};
ghost use Rattle.match_net.specs.declared.limits.TheConstants.{MAX_PLAY_BYTES};
ghost use Rattle.match_net.specs.Downward.{InStream, TakesMore, TryMeans, AskMeans};
ghost use Rattle.match_net.specs.Downward.{MovesBy};
ghost use Rattle.match_net.specs.PieceTaking.{TookAtMost};

use crate::coming_packet::ComingPacket;
use crate::limits::MAX_PLAY_BYTES;
use crate::piece::Piece;
use crate::piece_taking::take_piece;
use crate::play_cause::PlayCause;
use base::NoMemory;
use game_io::Source;
use order_packets::DownFeeder;

/// Takes a piece from a link, and feeds it, or answers what comes instead of the next packet, which
/// is not whole and begins at this place.
fn take_more<I: Source>(
    feeder: &mut DownFeeder,
    link: &mut I,
    at: u64,
) -> Result<Option<ComingPacket>, NoMemory>
    requires fault { feeder.old.fault ≡ None }
    requires few { feeder.old.at + length feeder.old.rest ≤ MAX_PLAY_BYTES }
    requires place { at ≡ feeder.old.at }
    ensures ok { IfOk result (λ answer. TakesMore (I.state link.old) (I.state link.new) feeder.old
        feeder.new answer) }
    ensures err { OnErr result (TookAtMost
        (MAX_PLAY_BYTES - (feeder.old.at + length feeder.old.rest)) (I.state link.old)
        (I.state link.new)) }
{
    let room = MAX_PLAY_BYTES - (at as usize + feeder.held());
    if room == 0 {
        return Ok(Some(bad(at, PlayCause::SessionTooLong)));
    }
    match take_piece(feeder, link, room) {
        Ok(Piece::Some) => Ok(None),
        Ok(Piece::End) => Ok(Some(bad(at, PlayCause::Early))),
        Ok(Piece::Lost) => Ok(Some(ComingPacket::Lost)),
        Err(error) => Err(error),
    }
}

/// Answers what comes next down a link, if that is there; else takes a piece of its bytes.
fn try_next<I: Source>(
    feeder: &mut DownFeeder,
    link: &mut I,
) -> Result<Option<ComingPacket>, NoMemory>
    requires fault { feeder.old.fault ≡ None }
    requires few { feeder.old.at + length feeder.old.rest ≤ MAX_PLAY_BYTES }
    ensures moves { IfOk result (λ answer. MovesBy feeder.old feeder.new answer) }
    ensures means { (first : SourceState) (packets : List Down) →
        InStream first (I.state link.old) packets feeder.old →
        TryMeans first (I.state link.new) packets feeder.new result }
{
    let at = feeder.at();
    match feeder.next() {
        Ok(Some(packet)) => Ok(Some(ComingPacket::Packet { at, packet })),
        Ok(None) => take_more(feeder, link, at),
        Err(fault) => Ok(Some(bad(at, PlayCause::Feed(fault)))),
    }
}

/// What comes next down a player's link. At most [`MAX_PLAY_BYTES`] are taken from it in all.
pub(crate) fn next_packet<I: Source>(
    feeder: &mut DownFeeder,
    link: &mut I,
) -> Result<ComingPacket, NoMemory>
    requires fault { feeder.old.fault ≡ None }
    requires few { feeder.old.at + length feeder.old.rest ≤ MAX_PLAY_BYTES }
    ensures moves { IfOk result (λ next. MovesBy feeder.old feeder.new (Some next)) }
    ensures means { (first : SourceState) (packets : List Down) →
        InStream first (I.state link.old) packets feeder.old →
        AskMeans first (I.state link.new) packets feeder.new result }
{
    'asking: loop {
        match try_next(feeder, link) {
            Ok(None) => {}
            Ok(Some(next)) => return Ok(next),
            Err(error) => return Err(error),
        }
    }
}

/// No packet begins at this place.
fn bad(at: u64, cause: PlayCause) -> ComingPacket
    ensures { result ≡ ComingPacket.Bad at cause }
{
    ComingPacket::Bad { at, cause }
}
