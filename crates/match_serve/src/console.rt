//! The console of a server.
ghost use Rattle.std.specs.Prelude.{◌≡◌, ◌<◌, ◌≤◌, ◌++◌, ◌∷◌, [], ℕ, List, length, take};
ghost use Rattle.std.specs.Prelude.{true, IfSome};
ghost use Rattle.std.specs.List.{list_any};
ghost use Rattle.game_io.specs.SourceState.{SourceState};
ghost use Rattle.game_orders.specs.declared.limits.TheConstants.{MAX_CLIENTS};
ghost use Rattle.frame_table.specs.declared.pass.Pass.{Pass};
ghost use Rattle.frame_table.specs.Calls.{view_of};
ghost use Rattle.match_serve.specs.declared.kicks.TheConstants.{LINE_ROOM};
ghost use Rattle.match_serve.specs.Passes.{IsServePass, Learns, SeesLeft, StayLeft};
ghost use Rattle.match_serve.specs.Console.{ends_line, kicks_client};
ghost use Rattle.match_serve.specs.Watching.{AreNewKicks, NamesKicked, KicksBy, WatchedSoFar};
ghost use Rattle.match_serve.specs.Watching.{WatchedLines, TakenSoFar, AfterTake, WatchesConsole};

use crate::kicks::{Kicks, LINE_END, LINE_ROOM};
use crate::leaving::let_go;
use arrayvec::ArrayVec;
use frame_table::{FrameTable, Pass};
use game_io::Source;
use std::sync::Wait;

/// The most bytes that are taken from the console at once.
const CONSOLE_BYTES: usize = 64;

/// Reads the console, and lets each client leave that one of its lines kicks, until it ends or
/// fails, or gives a line after every client has left.
pub(crate) fn watch_console<C: Source, R: Wait>(
    rt: &R,
    table: &FrameTable,
    pass: &mut Pass,
    clients: u8,
    console: &mut C,
    kicks: &mut Kicks,
)
    requires pass { IsServePass clients table.now pass.old }
    requires most { clients ≤ MAX_CLIENTS }
    requires kicks { AreNewKicks clients kicks.old }
    ensures watches { WatchesConsole clients table.now (C.state console.old) (C.state console.new)
        pass.old pass.new kicks.new.kicked.items }
{
    take_all(rt, table, pass, clients, console, kicks);
    end_line(rt, table, pass, clients, kicks);
}

/// Reads the console to its end, but for the line that has not ended yet.
fn take_all<C: Source, R: Wait>(
    rt: &R,
    table: &FrameTable,
    pass: &mut Pass,
    clients: u8,
    console: &mut C,
    kicks: &mut Kicks,
)
    requires pass { IsServePass clients table.now pass.old }
    requires most { clients ≤ MAX_CLIENTS }
    requires kicks { AreNewKicks clients kicks.old }
    ensures pass { IsServePass clients table.now pass.new }
    ensures count { length kicks.new.kicked.items ≡ clients }
    ensures taken { AfterTake clients table.now (C.state console.old) (C.state console.new)
        pass.old pass.new kicks.new true }
{
    for _turn in rt.forever() {
        if take_once(rt, table, pass, clients, console, kicks) {
            return;
        }
    }
    unreachable!()
}

/// Reads what the console gives next, and answers whether that is all.
fn take_once<C: Source, R: Wait>(
    rt: &R,
    table: &FrameTable,
    pass: &mut Pass,
    clients: u8,
    console: &mut C,
    kicks: &mut Kicks,
) -> bool
    requires pass { IsServePass clients table.now pass.old }
    requires most { clients ≤ MAX_CLIENTS }
    requires count { length kicks.old.kicked.items ≡ clients }
    ensures pass { IsServePass clients table.now pass.new }
    ensures count { length kicks.new.kicked.items ≡ clients }
    ensures takes { (first : SourceState) (start : Pass) →
        TakenSoFar clients table.now first (C.state console.old) start pass.old kicks.old →
        AfterTake clients table.now first (C.state console.new) start pass.new kicks.new result }
{
    let mut bytes = [0; CONSOLE_BYTES];
    match console.take(&mut bytes) {
        Ok(0) => true,
        Ok(count) => {
            // a line that comes once all have left ends it, and not one that lets the last one
            // leave
            let over = have_all_left(table, pass, clients);
            let ended = read_bytes(rt, table, pass, clients, kicks, &bytes[..count]);
            ended && over
        }
        Err(_) => true,
    }
}

/// True where the pass sees that every client has left, false where it sees that one has not.
fn have_all_left(table: &FrameTable, pass: &mut Pass, clients: u8) -> bool
    requires pass { IsServePass clients table.now pass.old }
    ensures pass { IsServePass clients table.now pass.new }
    ensures sees { SeesLeft clients (view_of pass.new) result }
    ensures learns { Learns (view_of pass.old) (view_of pass.new) }
{
    for c in 0..clients {
        if !table.seen(pass, c).left {
            return false;
        }
    }
    true
}

/// Reads these bytes of the console, and answers whether a line ends in them.
fn read_bytes<R: Wait>(
    rt: &R,
    table: &FrameTable,
    pass: &mut Pass,
    clients: u8,
    kicks: &mut Kicks,
    bytes: &[u8],
) -> bool
    requires pass { IsServePass clients table.now pass.old }
    requires most { clients ≤ MAX_CLIENTS }
    requires count { length kicks.old.kicked.items ≡ clients }
    ensures pass { IsServePass clients table.now pass.new }
    ensures count { length kicks.new.kicked.items ≡ clients }
    ensures ends { result ≡ list_any ends_line bytes.now }
    ensures left { StayLeft (view_of pass.old) (view_of pass.new) }
    ensures reads { (before : List ℕ) (start : Pass) →
        WatchedSoFar clients table.now before start pass.old kicks.old →
        WatchedSoFar clients table.now (before ++ bytes.now) start pass.new kicks.new }
{
    let mut ended = false;
    for byte in bytes {
        let ends_here = read_byte(rt, table, pass, clients, kicks, *byte);
        ended = ended || ends_here;
    }
    ended
}

/// Reads a byte of the console, and answers whether a line ends with it.
fn read_byte<R: Wait>(
    rt: &R,
    table: &FrameTable,
    pass: &mut Pass,
    clients: u8,
    kicks: &mut Kicks,
    byte: u8,
) -> bool
    requires pass { IsServePass clients table.now pass.old }
    requires most { clients ≤ MAX_CLIENTS }
    requires count { length kicks.old.kicked.items ≡ clients }
    ensures pass { IsServePass clients table.now pass.new }
    ensures count { length kicks.new.kicked.items ≡ clients }
    ensures ends { result ≡ ends_line byte }
    ensures left { StayLeft (view_of pass.old) (view_of pass.new) }
    ensures reads { (before : List ℕ) (start : Pass) →
        WatchedSoFar clients table.now before start pass.old kicks.old →
        WatchedSoFar clients table.now (before ++ byte ∷ []) start pass.new kicks.new }
{
    if byte == LINE_END {
        end_line(rt, table, pass, clients, kicks);
        return true;
    }
    keep_byte(&mut kicks.line, byte);
    false
}

/// Adds a byte to the line, where there is room.
fn keep_byte(line: &mut ArrayVec<u8, LINE_ROOM>, byte: u8)
    ensures { line.new.items ≡ take LINE_ROOM (line.old.items ++ byte ∷ []) }
{
    if !line.is_full() {
        line.push(byte);
    }
}

/// Lets the client leave that the line kicks, if it kicks one, and begins the next line.
fn end_line<R: Wait>(rt: &R, table: &FrameTable, pass: &mut Pass, clients: u8, kicks: &mut Kicks)
    requires pass { IsServePass clients table.now pass.old }
    requires most { clients ≤ MAX_CLIENTS }
    requires count { length kicks.old.kicked.items ≡ clients }
    ensures pass { IsServePass clients table.now pass.new }
    ensures count { length kicks.new.kicked.items ≡ clients }
    ensures left { StayLeft (view_of pass.old) (view_of pass.new) }
    ensures ends { (bytes : List ℕ) (start : Pass) →
        WatchedSoFar clients table.now bytes start pass.old kicks.old →
        WatchedLines clients table.now bytes start pass.new kicks.new }
{
    kick_by(
        rt,
        table,
        pass,
        clients,
        &mut kicks.kicked,
        kicks.line.as_slice(),
    );
    kicks.line.clear();
}

/// Lets the client leave that the line kicks, if it kicks one, and lists it.
fn kick_by<R: Wait>(
    rt: &R,
    table: &FrameTable,
    pass: &mut Pass,
    clients: u8,
    kicked: &mut Vec<bool>,
    line: &[u8],
)
    requires pass { IsServePass clients table.now pass.old }
    requires most { clients ≤ MAX_CLIENTS }
    requires count { length kicked.old.items ≡ clients }
    ensures pass { IsServePass clients table.now pass.new }
    ensures kicks { KicksBy clients line.now kicked.old.items kicked.new.items (view_of pass.old)
        (view_of pass.new) }
{
    if let Some(c) = kicked_by(line, clients) {
        kicked[c as usize] = true;
        let_go(rt, table, pass, clients, c);
    }
}

/// The client below this number that the line kicks.
fn kicked_by(line: &[u8], clients: u8) -> Option<u8>
    requires { clients ≤ MAX_CLIENTS }
    ensures names { NamesKicked clients line.now result }
    ensures below { IfSome result (λ c. c < clients) }
{
    for c in 0..clients {
        if is_kick(line, c) {
            return Some(c);
        }
    }
    None
}

/// True where the line kicks client `c`.
fn is_kick(line: &[u8], c: u8) -> bool
    requires { c < MAX_CLIENTS }
    ensures { result ≡ kicks_client c line.now }
{
    if c < 10 {
        line == [b'k', b'i', b'c', b'k', b' ', b'0' + c].as_slice()
    } else {
        line == [b'k', b'i', b'c', b'k', b' ', b'0' + c / 10, b'0' + c % 10].as_slice()
    }
}
