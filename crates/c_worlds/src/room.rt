ghost use Rattle.std.specs.Prelude.{◌≡◌, length};
ghost use Rattle.c_worlds.specs.Told.{room_code, written};

use c_objects::{NO_ROOM, OK};

/// Writes bytes to the beginning of an array, where they have room, and how many they are.
pub(crate) fn copy_out(bytes: &[u8], out: &mut [u8], needed: &mut usize) -> u32
    ensures code { result ≡ room_code (length out.old) (length bytes.now) }
    ensures out { out.new ≡ written bytes.now out.old }
    ensures needed { needed.new ≡ length bytes.now }
{
    *needed = bytes.len();
    if bytes.len() > out.len() {
        return NO_ROOM;
    }
    out[..bytes.len()].copy_from_slice(bytes);
    OK
}
