ghost use Rattle.std.specs.Prelude.{◌≡◌};
ghost use Rattle.serve_command.specs.ReadCauses.{read_name};

use link_commands::feed_name;
use match_net::ReadCause;

/// The name of the cause for which the bytes of a client's link were refused, as it is printed.
pub(crate) fn read_name(cause: ReadCause) -> &'static str
    ensures { result.now ≡ read_name cause }
{
    match cause {
        ReadCause::Feed(fault) => feed_name(fault),
        ReadCause::Conflict => "Conflict",
        ReadCause::Ahead => "Ahead",
        ReadCause::Full => "Full",
        ReadCause::SecondHello => "SecondHello",
        ReadCause::Version => "Version",
        ReadCause::OtherRules => "OtherRules",
        ReadCause::NoHello => "NoHello",
        ReadCause::SessionTooLong => "SessionTooLong",
    }
}
