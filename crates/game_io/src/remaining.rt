ghost use Rattle.std.specs.Prelude.{◌≡◌};
ghost use Rattle.game_io.specs.PlannedBytes.{remaining};

use crate::failing_call::Remains;

/// The bytes that remain of those that a call was to write and that failed.
pub fn remaining(remains: Remains, bytes: &[u8]) -> &[u8]
    ensures { result.now ≡ remaining remains bytes.now }
{
    match remains {
        Remains::Old | Remains::Nothing => &bytes[..0],
        Remains::Prefix(count) => &bytes[..count.min(bytes.len())],
    }
}
