//! The threads that serve links.
ghost use Rattle.std.specs.Prelude.{◌≡◌, ◌<◌, length, All};
ghost use Rattle.frame_table.specs.declared.planned.Planned.TheVariants.{Free};
ghost use Rattle.frame_table.specs.Calls.{plan_of, view_of, standing, IsPassOf};
ghost use Rattle.match_serve.specs.Passes.{IsTakenOut};
ghost use Rattle.match_serve.specs.Seats.{IsNewSeat, MayRead, HasRead, MaySend, HasSent};
ghost use Rattle.match_serve.specs.Seats.{ServesSeat, AreServed};

use crate::link_seat::{LinkSeat, ReadSeat, SessionEnds};
use crate::logging::greeting_event;
use crate::served_link::ServedLink;
use frame_table::{FrameTable, Pass};
use game_io::{MatchEvent, NoGreeting, Sink, Source, Watch};
use game_orders::MAX_CLIENTS;
use match_net::{
    Greeting, Invite, ReaderEnd, SenderEnd, greet_counted, reader_session_counted, sender_session,
};
use std::alloc::Global;
use std::sync::Wait;
use std::thread;
use std::thread::{Threads, join_mut};

/// Reads a greeted link.
fn read_link<R: Wait, I: Source>(
    rt: &R,
    table: &FrameTable,
    invite: &Invite,
    greeting: &Greeting,
    seat: &mut ReadSeat,
    link: &mut I,
) -> ReaderEnd
    requires { MayRead table.now invite.now greeting.now seat.old (I.state link.old) }
    ensures { HasRead table.now invite.now greeting.now seat.old seat.new (I.state link.old)
        (I.state link.new) result }
{
    reader_session_counted(
        rt,
        table,
        &mut seat.pass,
        invite,
        *greeting,
        &mut seat.feeder,
        link,
        &mut seat.reports,
        &mut seat.taken,
    )
}

/// Sends to a greeted link.
fn send_link<R: Wait, O: Sink>(
    rt: &R,
    alloc: Global,
    table: &FrameTable,
    invite: &Invite,
    greeting: &Greeting,
    pass: &mut Pass,
    link: &mut O,
) -> SenderEnd
    requires { MaySend table.now invite.now pass.old }
    ensures { HasSent table.now invite.now greeting.now pass.old pass.new (O.state link.old)
        (O.state link.new) result }
{
    sender_session(rt, alloc, table, pass, invite, *greeting, link)
}

/// Reads a greeted link and sends to it, both at once.
fn run_sessions<R: Threads + Wait + Sync, I: Source + Send, O: Sink + Send>(
    rt: &R,
    alloc: Global,
    table: &FrameTable,
    invite: &Invite,
    greeting: &Greeting,
    reading: &mut ReadSeat,
    sending: &mut Pass,
    input: &mut I,
    output: &mut O,
) -> SessionEnds
    requires reads { MayRead table.now invite.now greeting.now reading.old (I.state input.old) }
    requires sends { MaySend table.now invite.now sending.old }
    ensures reads { HasRead table.now invite.now greeting.now reading.old reading.new
        (I.state input.old) (I.state input.new) result.reader }
    ensures sends { HasSent table.now invite.now greeting.now sending.old sending.new
        (O.state output.old) (O.state output.new) result.sender }
{
    let mut read = || -> ReaderEnd
        requires { MayRead table.now invite.now greeting.now reading.now (I.state input.now) }
        ensures { HasRead table.entry.now invite.entry.now greeting.entry.now reading.entry.now
            reading.exit.now (I.state input.entry.now) (I.state input.exit.now) result }
    { read_link(rt, table, invite, greeting, reading, input) };
    let mut send = || -> SenderEnd
        requires { MaySend table.now invite.now sending.now }
        ensures { HasSent table.entry.now invite.entry.now greeting.entry.now sending.entry.now
            sending.exit.now (O.state output.entry.now) (O.state output.exit.now) result }
    { send_link(rt, alloc, table, invite, greeting, sending, output) };
    let (reader, sender) = join_mut(rt, &mut read, &mut send);
    SessionEnds { reader, sender }
}

/// Serves a greeted link.
fn serve_greeted<R: Threads + Wait + Sync, I: Source + Send, O: Sink + Send>(
    rt: &R,
    alloc: Global,
    table: &FrameTable,
    greeting: &Greeting,
    seat: &mut LinkSeat,
    input: &mut I,
    output: &mut O,
)
    requires reads { MayRead table.now seat.old.invite greeting.now seat.old.reading
        (I.state input.old) }
    requires sends { MaySend table.now seat.old.invite seat.old.sending }
    ensures reads { HasRead table.now seat.old.invite greeting.now seat.old.reading
        seat.new.reading (I.state input.old) (I.state input.new) seat.new.ends.reader }
    ensures sends { HasSent table.now seat.old.invite greeting.now seat.old.sending
        seat.new.sending (O.state output.old) (O.state output.new) seat.new.ends.sender }
    ensures told { seat.new.invite ≡ seat.old.invite }
{
    let LinkSeat {
        invite,
        reading,
        sending,
        ends,
    } = seat;
    *ends = run_sessions(
        rt, alloc, table, invite, greeting, reading, sending, input, output,
    );
}

/// Lets the client of a link leave for whose greeting memory ran out.
fn give_up<R: Wait>(rt: &R, table: &FrameTable, seat: &mut LinkSeat)
    requires pass { IsPassOf table.now seat.old.reading.pass }
    requires client { seat.old.invite.client < length (plan_of table.now) }
    requires free { (standing seat.old.reading.pass seat.old.invite.client).planned ≡ Free }
    ensures pass { IsPassOf table.now seat.new.reading.pass }
    ensures leaves { IsTakenOut seat.old.invite.client (view_of seat.old.reading.pass)
        (view_of seat.new.reading.pass) }
    ensures reports { seat.new.reading.reports ≡ seat.old.reading.reports }
    ensures taken { seat.new.reading.taken ≡ seat.old.reading.taken }
    ensures sending { seat.new.sending ≡ seat.old.sending }
    ensures told { seat.new.invite ≡ seat.old.invite }
    ensures reader { seat.new.ends.reader ≡ ReaderEnd.NoMemory }
    ensures sender { seat.new.ends.sender ≡ SenderEnd.Sent }
{
    let _left = table.leave(rt, &mut seat.reading.pass, seat.invite.client);
    seat.ends = SessionEnds {
        reader: ReaderEnd::NoMemory,
        sender: SenderEnd::Sent,
    };
}

/// Greets a link and runs its two sessions. Where memory runs out for the greeting its client
/// leaves.
fn serve_seat<R: Threads + Wait + Sync, I: Source + Send, O: Sink + Send, W: Watch>(
    rt: &R,
    alloc: Global,
    table: &FrameTable,
    seat: &mut LinkSeat,
    input: &mut I,
    output: &mut O,
    watch: &W,
)
    requires { IsNewSeat seat.old.invite.clients table.now seat.old }
    ensures { ServesSeat seat.old.invite.clients table.now seat.old seat.new
        (I.state input.old) (I.state input.new) (O.state output.old) (O.state output.new) }
{
    let _rules = seat.invite.rules;
    let client = seat.invite.client;
    let reading = &mut seat.reading;
    match greet_counted(&seat.invite, &mut reading.feeder, input, &mut reading.taken) {
        Ok(greeting) => {
            watch.log(greeting_event(client, &greeting));
            serve_greeted(rt, alloc, table, &greeting, seat, input, output);
        }
        Err(_) => {
            let why = NoGreeting::NoMemory;
            watch.log(MatchEvent::GreetsNot { client, why });
            give_up(rt, table, seat);
        }
    }
}

/// Serves a link.
fn serve_link<R: Threads + Wait + Sync, I: Source + Send + Drop, O: Sink + Send + Drop, W: Watch>(
    rt: &R,
    alloc: Global,
    table: &FrameTable,
    piece: &mut ServedLink<I, O>,
    watch: &W,
)
    requires { IsNewSeat piece.old.seat.invite.clients table.now piece.old.seat }
    ensures { ServesSeat piece.old.seat.invite.clients table.now piece.old.seat piece.new.seat
        piece.old.input piece.new.input piece.old.output piece.new.output }
{
    let ServedLink {
        input,
        output,
        seat,
    } = piece;
    serve_seat(rt, alloc, table, seat, input, output, watch);
}

/// Serves each of these links, in a thread of its own.
pub(crate) fn serve_links<
    R: Threads + Wait + Sync,
    I: Source + Send + Drop,
    O: Sink + Send + Drop,
    W: Watch + Sync,
>(rt: &R, alloc: Global, table: &FrameTable, pieces: &mut [ServedLink<I, O>], watch: &W)
    requires { All (λ piece. IsNewSeat piece.seat.invite.clients table.now piece.seat)
        pieces.old }
    ensures { AreServed table.now pieces.old pieces.new }
{
    let each = |_: usize, piece: &mut ServedLink<I, O>|
        requires { IsNewSeat piece.now.seat.invite.clients table.now piece.now.seat }
        ensures { ServesSeat piece.entry.now.seat.invite.clients table.entry.now
            piece.entry.now.seat piece.exit.now.seat piece.entry.now.input piece.exit.now.input
            piece.entry.now.output piece.exit.now.output }
    { serve_link(rt, alloc, table, piece, watch) };
    thread::for_each_mut(rt, pieces, MAX_CLIENTS as usize, &each);
}
