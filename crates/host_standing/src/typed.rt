//! What a line of the console says.
ghost use Rattle.std.specs.Prelude.{◌≡◌, ◌<◌, ◌++◌, ◌∷◌, [], codes, IfSome, IfNone, true};
ghost use Rattle.game_io.specs.declared.net.TheConstants.{MAX_LINKS};
ghost use Rattle.host_standing.specs.Typed.{KicksNobody, Says, kick_line, kicks_client, stops};

use arrayvec::ArrayVec;
use game_io::MAX_LINKS;

/// A line ends with it.
pub const LINE_END: u8 = 10;

/// Room for the longest line that says something, its end, and one more byte.
pub const LINE_ROOM: usize = 9;

/// The most clients of a match.
pub const MAX_CLIENTS: u8 = MAX_LINKS as u8;

/// What a line says.
#[derive(Clone, Copy, Debug, PartialEq, Eq)]
pub enum Typed {
    /// This client is let go. Whether the match has it, the match decides.
    Kick(u8),
    /// The match is ended: every client is let go.
    Stop,
    /// Nothing.
    Other,
}

/// What a line says, without the byte that ends it.
pub fn what_is_typed(line: &[u8]) -> Typed
    ensures { Says line.now result }
{
    if is_stop(line) {
        return Typed::Stop;
    }
    match kicked_by(line) {
        Some(client) => Typed::Kick(client),
        None => Typed::Other,
    }
}

/// Whether the line ends the match.
fn is_stop(line: &[u8]) -> bool
    ensures { result ≡ stops line.now }
{
    line == b"stop".as_slice()
}

/// The client that the line kicks.
fn kicked_by(line: &[u8]) -> Option<u8>
    ensures below { IfSome result (λ client. client < MAX_LINKS) }
    ensures kicks { IfSome result (λ client. kicks_client client line.now ≡ true) }
    ensures nobody { IfNone result (KicksNobody line.now) }
{
    for client in 0..MAX_CLIENTS {
        if is_kick(line, client) {
            return Some(client);
        }
    }
    None
}

/// Whether the line kicks this client.
fn is_kick(line: &[u8], client: u8) -> bool
    requires { client < MAX_LINKS }
    ensures { result ≡ kicks_client client line.now }
{
    if client < 10 {
        line == [b'k', b'i', b'c', b'k', b' ', b'0' + client].as_slice()
    } else {
        line == [
            b'k',
            b'i',
            b'c',
            b'k',
            b' ',
            b'0' + client / 10,
            b'0' + client % 10,
        ]
        .as_slice()
    }
}

/// How a line begins that kicks a client.
fn kick_head() -> ArrayVec<u8, LINE_ROOM>
    ensures { result.items ≡ codes "kick " }
{
    let mut line = ArrayVec::new();
    line.push(b'k');
    line.push(b'i');
    line.push(b'c');
    line.push(b'k');
    line.push(b' ');
    line
}

/// The line that kicks a client, with its end.
pub fn kick_text(client: u8) -> ArrayVec<u8, LINE_ROOM>
    requires { client < MAX_LINKS }
    ensures { result.items ≡ kick_line client ++ 10 ∷ [] }
{
    let mut line = kick_head();
    if client < 10 {
        line.push(b'0' + client);
        line.push(LINE_END);
        return line;
    }
    line.push(b'0' + client / 10);
    line.push(b'0' + client % 10);
    line.push(LINE_END);
    line
}
