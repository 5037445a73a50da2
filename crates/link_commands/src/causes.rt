//! The causes of links as they are printed: the variants' names.
ghost use Rattle.std.specs.Prelude.{◌≡◌};
ghost use Rattle.link_commands.specs.CauseNames.{feed_name, play_name};

use match_net::PlayCause;
use order_packets::FeedFault;

/// The name of a fault in a packet's place, as it is printed.
pub fn feed_name(fault: FeedFault) -> &'static str
    ensures { result.now ≡ feed_name fault }
{
    match fault {
        FeedFault::BadTag => "BadTag",
        FeedFault::TooManyOrders => "TooManyOrders",
        FeedFault::BadOrder => "BadOrder",
        FeedFault::TrailingInPacket => "TrailingInPacket",
        FeedFault::LengthTooLarge => "LengthTooLarge",
        FeedFault::ShortPacket => "ShortPacket",
    }
}

/// The name of the cause for which a player's link is refused.
pub(crate) fn play_name(cause: PlayCause) -> &'static str
    ensures { result.now ≡ play_name cause }
{
    match cause {
        PlayCause::Feed(fault) => feed_name(fault),
        PlayCause::BadWelcome => "BadWelcome",
        PlayCause::BadClient => "BadClient",
        PlayCause::Conflict => "Conflict",
        PlayCause::Past => "Past",
        PlayCause::Beyond => "Beyond",
        PlayCause::Early => "Early",
        PlayCause::SessionTooLong => "SessionTooLong",
    }
}
