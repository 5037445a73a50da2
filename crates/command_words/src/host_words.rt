//! What arguments say of the log, the clocks and the ports, before a match begins.
ghost use Rattle.std.specs.Prelude.{◌≡◌, IfOk, map, string_bytes};
ghost use Rattle.command_words.specs.HostOptions.{no_options, options_in, options_of};
ghost use Rattle.command_words.specs.Reading.{request_of};
ghost use Rattle.command_words.specs.RequestPlain.{plain_of, FitsHost, IsWithinBounds};

use crate::host::HostOptions;
use crate::reading::read_arguments;
use crate::request::Request;
use crate::words_fault::WordsFault;
use base::NoMemory;
use std::alloc::{AllocError, Global};

/// What the arguments say of the log, the clocks and the ports of a match over links; the first of
/// them is the program's name. It is none of the options where the arguments are refused, or name
/// another command than `serve` and `play`. Out of memory is the only error.
pub fn host_options(alloc: Global, words: &[String]) -> Result<HostOptions, NoMemory>
    ensures options { IfOk result
        (λ options. options ≡ options_in (request_of (map string_bytes words.now))) }
    ensures fits { IfOk result FitsHost }
{
    match read_arguments(alloc, words) {
        Ok(request) => Ok(options_of(&request)),
        Err(WordsFault::Refused) => Ok(HostOptions::none()),
        Err(WordsFault::NoMemory) => Err(AllocError),
    }
}

/// What a request says of them.
fn options_of(request: &Request<'_>) -> HostOptions
    requires bounds { IsWithinBounds request.now }
    ensures value { result ≡ options_of (plain_of request.now) }
    ensures fits { FitsHost result }
{
    match request {
        Request::Serve(query) => query.host,
        Request::Play { is_quiet, .. } => quiet_options(*is_quiet),
        Request::PlayBot(query) => quiet_options(query.is_quiet),
        Request::Drill { .. }
        | Request::Yaml { .. }
        | Request::Check { .. }
        | Request::Route(_)
        | Request::Make { .. }
        | Request::Local { .. }
        | Request::Replay(_)
        | Request::Migrate { .. }
        | Request::Save { .. }
        | Request::Continue { .. }
        | Request::View { .. }
        | Request::Worlds { .. }
        | Request::Compare { .. }
        | Request::Datagrams { .. } => HostOptions::none(),
    }
}

/// A log or none, and none of the other options.
fn quiet_options(is_quiet: bool) -> HostOptions
    ensures value { result ≡ record no_options { is_quiet = is_quiet } }
    ensures fits { FitsHost result }
{
    HostOptions {
        is_quiet,
        ..HostOptions::none()
    }
}
