//! The program `lockstep`: it hands its arguments, the real files and the real output to `run`, or,
//! where the command is one of that call's, to `run_waiting`, with the devices of a host: links, a
//! console, a log and clocks.
#![tactic(auto)]

use command_answers::OUT_OF_MEMORY;
use datagram_net::{ByAddress, Udp};
use game_io::{FileDisk, StdSink, Tcp, TransportNet, WatchedGate};
use host_devices::{
    DeskShares, HostConsole, HostDesk, HostWatch, SharedDesk, cut_late_links, end_log, limit_lobby,
    read_typed, write_log,
};
use match_commands::{HostOptions, host_options, may_wait, run, run_waiting};
use std::alloc::AllocError;
use std::fs::File;
use std::io::ErrorKind;
use std::process::ExitCode;
use std::sync::{Arc, Wait};
use std::time::Clock;
use std::{env, io, thread};

/// The arguments of the command line.
fn arguments_of(rt: &HostRuntime) -> io::Result<Vec<String>> {
    let mut words = Vec::new(rt.alloc());
    for word in env::args(rt)? {
        words.push(word)?;
    }
    Ok(words)
}

/// The same. Arguments that are not UTF-8 are refused, as an empty command line is. Out of memory is
/// the one error.
fn words_of(rt: &HostRuntime) -> Result<Vec<String>, AllocError> {
    match arguments_of(rt) {
        Ok(words) => Ok(words),
        Err(error) => match error.kind() {
            ErrorKind::OutOfMemory => Err(AllocError),
            _ => Ok(Vec::new(rt.alloc())),
        },
    }
}

/// Files in the places of the standard streams that are closed, so that no socket comes there, to
/// which the log or the text would be written.
fn hold_streams(rt: &HostRuntime) -> io::Result<(File, File, File)> {
    let first = File::open(rt, "/dev/null")?;
    let second = File::open(rt, "/dev/null")?;
    Ok((first, second, File::open(rt, "/dev/null")?))
}

/// What the words say of the devices, and the desk that these share, once for `main` and once for each
/// of four. Out of memory is the one error.
fn desk_of<R: Clock + Wait + AllocGlobal>(
    rt: &R,
    words: &[String],
    is_unheld: bool,
) -> Result<(HostOptions, SharedDesk, DeskShares), AllocError> {
    let options = host_options(rt.alloc(), words)?;
    let is_quiet = options.is_quiet || is_unheld;
    let desk = HostDesk::create(rt, rt.alloc(), is_quiet, options.patience)?;
    if options.udp_ports.is_some() && !has_udp_address(words) {
        desk.say_no_ports(rt);
    }
    let shares = HostDesk::shares(&desk)?;
    Ok((options, desk, shares))
}

/// The first and the last port of the links over UDP, if they are given.
fn udp_ports(options: &HostOptions) -> Option<(u16, u16)> {
    match options.udp_ports {
        Some(ports) => Some((ports.first, ports.last)),
        None => None,
    }
}

/// Whether a word is an address of links over UDP.
fn has_udp_address(words: &[String]) -> bool {
    for word in words {
        let word = word.as_str();
        if word.starts_with("udp:") || word.starts_with("--at=udp:") {
            return true;
        }
    }
    false
}

/// Whether the command is the one of a host.
fn is_serve(words: &[String]) -> bool {
    match words.get(1) {
        Some(command) => command.as_str() == "serve",
        None => false,
    }
}

fn main(rt: HostRuntime) -> ExitCode {
    let Ok(words) = words_of(&rt) else {
        return ExitCode::from(OUT_OF_MEMORY);
    };
    let mut disk = FileDisk::new(&rt);
    let mut out = StdSink::new(io::writer(&rt));
    if !may_wait(&words) {
        return ExitCode::from(run(rt.alloc(), &words, &mut disk, &mut out));
    }
    let held = hold_streams(&rt);
    let Ok((options, desk, shares)) = desk_of(&rt, &words, held.is_err()) else {
        return ExitCode::from(OUT_OF_MEMORY);
    };
    let (noting, typing, logging, cutting, cut) = shares;
    let Ok(udp_cut) = Arc::try_clone(&cut) else {
        return ExitCode::from(OUT_OF_MEMORY);
    };
    // Nobody waits for these threads, and the process ends without them.
    if is_serve(&words) {
        let reads = thread::spawn(&rt, move || read_typed(&rt, &typing)).is_ok();
        let writes = thread::spawn(&rt, move || write_log(&rt, &logging)).is_ok();
        let cuts = thread::spawn(&rt, move || cut_late_links(&rt, &cutting)).is_ok();
        if !(reads && writes && cuts) {
            return ExitCode::from(OUT_OF_MEMORY);
        }
    } else {
        drop((typing, logging, cutting));
    }
    // Only a clock cuts links: the sockets of others need no limits of time.
    let tcp = match options.patience {
        Some(_) => Tcp::hosted(&rt, desk.stop(), cut),
        None => Tcp::until(&rt, desk.stop()),
    };
    let udp = Udp::new(&rt, rt.alloc(), udp_ports(&options), desk.stop(), udp_cut);
    let mut net = TransportNet::over(ByAddress::new(tcp, udp));
    limit_lobby(&mut net, options.lobby);
    let mut console = HostConsole::new(&rt, &desk);
    let gate = WatchedGate::new(HostWatch::new(rt, noting));
    let alloc = rt.alloc();
    let status = run_waiting(
        &rt,
        alloc,
        &words,
        &mut disk,
        &mut out,
        &mut net,
        &mut console,
        &gate,
    );
    end_log(&rt, &desk, &net, is_serve(&words));
    ExitCode::from(status)
}
