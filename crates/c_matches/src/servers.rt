ghost use Rattle.std.specs.Prelude.{◌≡◌, ◌≢◌, ◌≤◌, None, Some, IfErr, IfOk, OnOk};
ghost use Rattle.game_orders.specs.declared.limits.TheConstants.{MAX_CLIENTS};
ghost use Rattle.c_objects.specs.declared.code.TheConstants.{NO_MEMORY, OK};
ghost use Rattle.c_matches.specs.Answers.{only, told_in};
ghost use Rattle.c_matches.specs.Packets.{up_in};
ghost use Rattle.c_matches.specs.Servers.{code_with, create_code, created, drop_answer, drop_after};
ghost use Rattle.c_matches.specs.Servers.{dropped, dropped_answer, leaving_answer, made_with};
ghost use Rattle.c_matches.specs.Servers.{opening_server, put_answer_of, received, received_answer};
ghost use Rattle.c_matches.specs.Servers.{report_answer_of, taken_answer, up_after, up_answer};

use crate::answer::Answer;
use crate::packet_reading::packet_in;
use base::NoMemory;
use c_objects::{
    AHEAD, BAD_ARGUMENT, BAD_BYTES, CONFLICT, FULL, IGNORED, Kept, LEFT, NO_FRAME, NO_MEMORY, OK,
    Object, REPEAT, WRONG_OBJECT,
};
use c_worlds::made_of;
use frame_core::{Leaving, Maker, Put};
use game_orders::MAX_CLIENTS;
use order_packets::Up;
use server_core::{Reported, Server, UpAnswer};
use setup_files::Made;
use std::alloc::Global;
use tick_core::Game;

/// The server of a match of 1 to 16 clients, over the opening world.
fn fresh_server(alloc: Global, made: &Made, clients: u8, seed: u32) -> Result<Box<Kept>, NoMemory>
    requires least { 1 ≤ clients }
    requires most { clients ≤ MAX_CLIENTS }
    ensures { IfOk result (λ kept. kept.value ≡ opening_server made.now clients seed) }
{
    let game = made.maker.make(alloc, seed, clients)?;
    let server = Server::create(alloc, clients, game)?;
    Ok(Box::new(alloc, Kept::Server(server))?)
}

/// The server of a match of so many clients, or the code for why there is none.
fn make_server(alloc: Global, made: &Made, clients: u32, seed: u32) -> Result<Box<Kept>, u32>
    ensures code { IfErr result (λ code. code ≢ NO_MEMORY
        → code ≡ code_with (Some made.now) clients) }
    ensures ok { OnOk result (code_with (Some made.now) clients ≡ OK) }
    ensures made { IfOk result (λ kept. Some kept.value ≡ made_with (Some made.now) clients seed) }
    ensures refused { IfErr result (λ code. code ≢ NO_MEMORY
        → made_with (Some made.now) clients seed ≡ None) }
{
    if clients == 0 || clients > u32::from(MAX_CLIENTS) {
        return Err(BAD_ARGUMENT);
    }
    match fresh_server(alloc, made, clients as u8, seed) {
        Ok(kept) => Ok(kept),
        Err(_) => Err(NO_MEMORY),
    }
}

/// Makes an empty object the server of a match of 1 to 16 clients, over a setup that was read.
pub fn server_create(
    object: &mut Object,
    setup: &mut Object,
    alloc: Global,
    clients: u32,
    seed: u32,
) -> u32
    ensures setup { setup.new.held.held ≡ setup.old.held.held }
    ensures code { result ≢ NO_MEMORY
        → result ≡ create_code object.old.held.held setup.old.held.held clients }
    ensures after { result ≢ NO_MEMORY → object.new.held.held
        ≡ created object.old.held.held setup.old.held.held clients seed }
    ensures memory { result ≡ NO_MEMORY → object.new.held.held ≡ object.old.held.held }
{
    if !object.is_empty() {
        return WRONG_OBJECT;
    }
    let Some(kept) = setup.take(alloc) else {
        return WRONG_OBJECT;
    };
    let made = match made_of(&kept) {
        Some(made) => make_server(alloc, made, clients, seed),
        None => Err(WRONG_OBJECT),
    };
    setup.put(kept);
    match made {
        Ok(kept) => {
            object.put(kept);
            OK
        }
        Err(code) => code,
    }
}

/// What is told of a play that was put into its client's column.
fn of_put(put: &Put) -> Answer
    ensures answer { result ≡ put_answer_of put.now }
    ensures memory { result.code ≢ NO_MEMORY }
{
    match put {
        Put::Fixed => Answer::only(OK),
        Put::Repeat => Answer::only(REPEAT),
        Put::Conflict(_) => Answer::only(CONFLICT),
        Put::Left(frame) => Answer::telling(LEFT, *frame),
        Put::Ahead(plays) => Answer::telling(AHEAD, *plays),
        Put::Full => Answer::only(FULL),
    }
}

/// What is told of a report.
fn of_report(reported: Reported) -> Answer
    ensures answer { result ≡ report_answer_of reported }
    ensures memory { result.code ≢ NO_MEMORY }
{
    match reported {
        Reported::Kept => Answer::only(OK),
        Reported::Repeat => Answer::only(REPEAT),
        Reported::Beyond => Answer::only(NO_FRAME),
    }
}

/// What is told of a departure.
fn of_leaving(leaving: Leaving) -> Answer
    ensures answer { result ≡ leaving_answer leaving }
    ensures memory { result.code ≢ NO_MEMORY }
{
    match leaving {
        Leaving::Fixed(frame) => Answer::telling(OK, frame),
        Leaving::Already(frame) => Answer::telling(LEFT, frame),
    }
}

/// What is told of a packet of a client.
fn of_up(answer: &UpAnswer) -> Answer
    ensures answer { result ≡ taken_answer answer.now }
    ensures memory { result.code ≢ NO_MEMORY }
{
    match answer {
        UpAnswer::Entry(put) => of_put(put),
        UpAnswer::Report(reported) => of_report(*reported),
        UpAnswer::Bye(leaving) => of_leaving(*leaving),
        UpAnswer::Ignored => Answer::only(IGNORED),
    }
}

/// Takes a packet of a client, as [`server_up`] does.
fn up(server: &mut Server<Game>, client: u32, bytes: &[u8]) -> Answer
    ensures answer { result.code ≢ NO_MEMORY
        → result ≡ up_answer client (up_in bytes.now) server.old }
    ensures after { result.code ≢ NO_MEMORY
        → server.new ≡ up_after client (up_in bytes.now) server.old }
    ensures memory { result.code ≡ NO_MEMORY → server.new ≡ server.old }
    ensures quiet { result.code ≡ NO_MEMORY → result ≡ only NO_MEMORY }
{
    if client >= u32::from(server.columns().clients()) {
        return Answer::only(BAD_ARGUMENT);
    }
    let Some(packet) = packet_in::<Up>(bytes) else {
        return Answer::only(BAD_BYTES);
    };
    match server.up(client as u8, &packet) {
        Ok(answer) => of_up(&answer),
        Err(_) => Answer::only(NO_MEMORY),
    }
}

/// Takes a packet of a client. Of orders: `OK` where they are new, `REPEAT` where they are there,
/// `CONFLICT` where others are, `LEFT` where the client left before, at the frame that is told,
/// `AHEAD` where those of the frame that is told come first, and `FULL` where a match has no more
/// frames. Of a report: `OK`, `REPEAT` where one of the frame is there, which stays, and `NO_FRAME`
/// where no match has the frame. A farewell lets the client leave, as [`server_drop`] does. `IGNORED`
/// for a greeting, `BAD_ARGUMENT` where the match has no such client. Only `OK` changes anything.
pub fn server_up(
    object: &mut Object,
    alloc: Global,
    client: u32,
    bytes: &[u8],
    told: &mut u32,
) -> u32
    ensures code { result ≢ NO_MEMORY
        → result ≡ (received_answer client bytes.now object.old.held.held).code }
    ensures told { result ≢ NO_MEMORY
        → told.new ≡ told_in (received_answer client bytes.now object.old.held.held) told.old }
    ensures after { result ≢ NO_MEMORY
        → object.new.held.held ≡ received client bytes.now object.old.held.held }
    ensures memory { result ≡ NO_MEMORY → object.new.held.held ≡ object.old.held.held }
    ensures same { result ≡ NO_MEMORY → told.new ≡ told.old }
{
    let Some(mut kept) = object.take(alloc) else {
        return WRONG_OBJECT;
    };
    let answer = match &mut *kept {
        Kept::Server(server) => up(server, client, bytes),
        _ => Answer::only(WRONG_OBJECT),
    };
    object.put(kept);
    answer.tell(told)
}

/// Lets a client leave, as [`server_drop`] does.
fn drop_from(server: &mut Server<Game>, client: u32) -> Answer
    ensures answer { result ≡ drop_answer client server.old }
    ensures after { server.new ≡ drop_after client server.old }
{
    if client >= u32::from(server.columns().clients()) {
        return Answer::only(BAD_ARGUMENT);
    }
    of_leaving(server.drop_client(client as u8))
}

/// Lets a client leave after the plays that it has: `OK`, or `LEFT` where it has left, and then
/// nothing changes. Either tells the frame of its departure.
pub fn server_drop(object: &mut Object, alloc: Global, client: u32, told: &mut u32) -> u32
    ensures code { result ≡ (dropped_answer client object.old.held.held).code }
    ensures told { told.new ≡ told_in (dropped_answer client object.old.held.held) told.old }
    ensures after { object.new.held.held ≡ dropped client object.old.held.held }
{
    let Some(mut kept) = object.take(alloc) else {
        return WRONG_OBJECT;
    };
    let answer = match &mut *kept {
        Kept::Server(server) => drop_from(server, client),
        _ => Answer::only(WRONG_OBJECT),
    };
    object.put(kept);
    answer.tell(told)
}
