ghost use Rattle.std.specs.Prelude.{◌≡◌, ◌≤◌, ◌++◌, Some, None, length, IfOk, IfNone, OnErr};
ghost use Rattle.order_packets.specs.Feed.{unfed, answer_of};
ghost use Rattle.order_packets.specs.PacketReading.{packet_at, up_at};
ghost use Rattle.match_net.specs.declared.limits.TheConstants.{MAX_LINK_BYTES};
ghost use Rattle.match_net.specs.PieceTaking.{Counts, TookAtMost};
ghost use Rattle.match_net.specs.Greeting.{greeting_of, decided, hello_bytes, Greets};

use crate::greeting::Greeting;
use crate::invite::Invite;
use crate::limits::MAX_LINK_BYTES;
use crate::piece::Piece;
use crate::piece_taking::take_counted;
use base::NoMemory;
use game_io::Source;
use order_packets::{NO_HELLO, OTHER_RULES, OTHER_VERSION, Up, UpFeeder, VERSION};

/// The length of the longest packet: with so many bytes the first one is decided.
const LONGEST_PACKET: usize = 258;

/// Takes bytes from a link into a new feeder until they decide the first packet, and answers what
/// they decide. At most [`MAX_LINK_BYTES`] are taken.
///
/// `Welcome` and `Refuse` exactly as a whole first packet says: a greeting of another version, one
/// with other rules, no greeting. `Fault` exactly where that fault stands in its place. `Ended`
/// exactly where the bytes end before it is whole; an observable link then has none left.
/// `Lost` only where the link's count of faults rose in this call. Out of memory is its one error;
/// then what was taken last is lost.
pub fn greet<I: Source>(
    invite: &Invite,
    feeder: &mut UpFeeder,
    link: &mut I,
) -> Result<Greeting, NoMemory>
    requires new { feeder.old ≡ unfed }
    ensures greeted { IfOk result (λ greeting. Greets invite.now.rules (I.state link.old)
        (I.state link.new) feeder.new greeting) }
    ensures err { OnErr result (TookAtMost MAX_LINK_BYTES (I.state link.old) (I.state link.new)) }
{
    let mut taken = 0;
    greet_counted(invite, feeder, link, &mut taken)
}

/// Greets a link as [`greet`] does, and adds the number of bytes that it takes to a count, which is
/// at most [`MAX_LINK_BYTES`] before. Those that are lost where memory runs out are counted too.
pub fn greet_counted<I: Source>(
    invite: &Invite,
    feeder: &mut UpFeeder,
    link: &mut I,
    taken: &mut u64,
) -> Result<Greeting, NoMemory>
    requires new { feeder.old ≡ unfed }
    requires few { taken.old ≤ MAX_LINK_BYTES }
    ensures greeted { IfOk result (λ greeting. (greets : Greets invite.now.rules (I.state link.old)
        (I.state link.new) feeder.new greeting) × Counts taken.old taken.new greets.taken) }
    ensures err { OnErr result ((took : TookAtMost MAX_LINK_BYTES (I.state link.old)
        (I.state link.new)) × Counts taken.old taken.new took.taken) }
{
    for _turn in 0..LONGEST_PACKET {
        match take_counted(feeder, link, MAX_LINK_BYTES - LONGEST_PACKET, taken) {
            Ok(Piece::Some) => {}
            Ok(Piece::End) => return Ok(Greeting::Ended),
            Ok(Piece::Lost) => return Ok(Greeting::Lost),
            Err(error) => return Err(error),
        }
        if let Some(greeting) = ask_once(invite.rules, feeder) {
            return Ok(greeting);
        }
    }
    unreachable!()
}

/// Asks for the first packet, and answers what it decides, if it is decided.
fn ask_once(here: u64, feeder: &mut UpFeeder) -> Option<Greeting>
    requires { feeder.old.fault ≡ None }
    ensures answer { result ≡ decided here (packet_at up_at feeder.old.rest) }
    ensures after { feeder.new ≡ (answer_of feeder.old (packet_at up_at feeder.old.rest)).1 }
    ensures few { IfNone result (length feeder.new.rest ≤ 257) }
    ensures welcomed { result ≡ Some Greeting.Welcome →
        feeder.old.rest ≡ hello_bytes here ++ feeder.new.rest }
{
    match feeder.next() {
        Ok(Some(first)) => Some(answer_to(&first, here)),
        Ok(None) => None,
        Err(fault) => Some(Greeting::Fault(fault)),
    }
}

/// The answer to a whole first packet, by the server's rules.
fn answer_to(first: &Up, here: u64) -> Greeting
    ensures { result ≡ greeting_of here first.now }
{
    match first {
        Up::Hello { version, rules } => answer_to_hello(*version, *rules, here),
        Up::Orders { .. } => Greeting::Refuse { code: NO_HELLO },
        Up::Sync { .. } => Greeting::Refuse { code: NO_HELLO },
        Up::Bye => Greeting::Refuse { code: NO_HELLO },
    }
}

/// The answer to a client's greeting.
fn answer_to_hello(version: u16, rules: u64, here: u64) -> Greeting
    ensures { result ≡ greeting_of here (Up.Hello version rules) }
{
    if version != VERSION {
        Greeting::Refuse {
            code: OTHER_VERSION,
        }
    } else if rules != here {
        Greeting::Refuse { code: OTHER_RULES }
    } else {
        Greeting::Welcome
    }
}
