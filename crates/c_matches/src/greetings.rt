ghost use Rattle.std.specs.Prelude.{◌≡◌, ◌≢◌};
ghost use Rattle.c_objects.specs.declared.code.TheConstants.{NO_MEMORY};
ghost use Rattle.c_worlds.specs.Held.{made_in, told_of};
ghost use Rattle.c_worlds.specs.Told.{one_code};
ghost use Rattle.c_matches.specs.Answers.{answer_by, told_in};
ghost use Rattle.c_matches.specs.Greetings.{greeting_answer, hello_told, up_answer};
ghost use Rattle.c_matches.specs.Greetings.{welcome_code, welcome_out, welcome_told};
ghost use Rattle.c_matches.specs.Packets.{down_in, packet_out, up_in};

use crate::answer::Answer;
use crate::packet::{CPacket, give_down, give_up};
use crate::packet_reading::packet_in;
use crate::terms::{CTerms, terms_in};
use c_objects::{BAD_ARGUMENT, BAD_BYTES, OK, Object, REFUSED, WRONG_OBJECT};
use c_worlds::made_of;
use order_packets::{Down, NO_HELLO, OTHER_RULES, OTHER_VERSION, Up, VERSION};
use setup_files::Made;
use std::alloc::Global;

/// Writes the greeting with which a client begins its link: the version of the packets, and the
/// number of the setup's rules and map.
pub fn hello(setup: &mut Object, alloc: Global, out: &mut CPacket) -> u32
    ensures code { result ≢ NO_MEMORY
        → result ≡ one_code (told_of (made_in setup.old.held.held) hello_told) }
    ensures out { result ≢ NO_MEMORY
        → out.new ≡ packet_out (told_of (made_in setup.old.held.held) hello_told) out.old }
    ensures memory { result ≡ NO_MEMORY → out.new ≡ out.old }
    ensures stays { setup.new.held.held ≡ setup.old.held.held }
{
    let Some(kept) = setup.take(alloc) else {
        return WRONG_OBJECT;
    };
    let code = match made_of(&kept) {
        Some(made) => give_up(alloc, &greeting_of(made), out),
        None => WRONG_OBJECT,
    };
    setup.put(kept);
    code
}

/// The greeting of a client of this setup.
fn greeting_of(made: &Made) -> Up
    ensures { result ≡ Up.Hello VERSION made.now.number }
{
    Up::Hello {
        version: VERSION,
        rules: made.number,
    }
}

/// The answer to a greeting of this version and these rules.
fn answer_to(made: &Made, version: u16, rules: u64) -> Answer
    ensures { result ≡ up_answer (Up.Hello version rules) made.now }
{
    if version != VERSION {
        return Answer::telling(REFUSED, u32::from(OTHER_VERSION));
    }
    if rules != made.number {
        return Answer::telling(REFUSED, u32::from(OTHER_RULES));
    }
    Answer::only(OK)
}

/// The answer to the first packet of a link.
fn answer_first(made: &Made, bytes: &[u8]) -> Answer
    ensures { result ≡ greeting_answer (up_in bytes.now) made.now }
{
    match packet_in::<Up>(bytes) {
        Some(Up::Hello { version, rules }) => answer_to(made, version, rules),
        Some(_) => Answer::telling(REFUSED, u32::from(NO_HELLO)),
        None => Answer::only(BAD_BYTES),
    }
}

/// Decides by the first packet of a link whether its client is in the match of this setup. `REFUSED`
/// where it is not: then the code to send is told, 1 for another version, 2 for other rules or
/// another map, 3 for a packet that is no greeting.
pub fn greeted(setup: &mut Object, alloc: Global, bytes: &[u8], told: &mut u32) -> u32
    ensures code { result
        ≡ (answer_by (made_in setup.old.held.held) (greeting_answer (up_in bytes.now))).code }
    ensures told { told.new ≡ told_in
        (answer_by (made_in setup.old.held.held) (greeting_answer (up_in bytes.now))) told.old }
    ensures stays { setup.new.held.held ≡ setup.old.held.held }
{
    let Some(kept) = setup.take(alloc) else {
        return WRONG_OBJECT;
    };
    let answer = match made_of(&kept) {
        Some(made) => answer_first(made, bytes),
        None => Answer::only(WRONG_OBJECT),
    };
    setup.put(kept);
    answer.tell(told)
}

/// Writes the welcome that a server sends to a client, where a match has these terms.
pub fn welcome(terms: &CTerms, alloc: Global, out: &mut CPacket) -> u32
    ensures code { result ≢ NO_MEMORY → result ≡ one_code (welcome_told terms.now) }
    ensures out { result ≢ NO_MEMORY → out.new ≡ packet_out (welcome_told terms.now) out.old }
    ensures memory { result ≡ NO_MEMORY → out.new ≡ out.old }
{
    let Some(terms) = terms_in(terms) else {
        return BAD_ARGUMENT;
    };
    let packet = Down::Welcome {
        client: terms.me,
        clients: terms.clients,
        lag: terms.lag,
        seed: terms.seed,
    };
    give_down(alloc, &packet, out)
}

/// The terms that a server's first packet has. `REFUSED` where it refuses the client: then `me` is
/// its code, and nothing else is written. The terms may be ones that no match has, which
/// [`crate::peer_create`] tells.
pub fn welcomed(bytes: &[u8], out: &mut CTerms) -> u32
    ensures code { result ≡ welcome_code (down_in bytes.now) }
    ensures out { out.new ≡ welcome_out (down_in bytes.now) out.old }
{
    match packet_in::<Down>(bytes) {
        Some(
            Down::Welcome {
                client,
                clients,
                lag,
                seed,
            },
        ) => {
            *out = CTerms {
                me: u32::from(client),
                clients: u32::from(clients),
                lag: u32::from(lag),
                seed,
            };
            OK
        }
        Some(Down::Refused { code }) => {
            out.me = u32::from(code);
            REFUSED
        }
        Some(Down::Entry { .. }) => BAD_BYTES,
        None => BAD_BYTES,
    }
}
