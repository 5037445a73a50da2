//! What the arguments after `serve` say of the log, the clocks and the ports.
ghost use Rattle.std.specs.Prelude.{◌≡◌, ◌≤◌, IfSome};
ghost use Rattle.clap.specs.Walk.{rows_of};
ghost use Rattle.clap.specs.Matches.{found_of};
ghost use Rattle.command_words.specs.Reading.{host_in, ports_in, ports_of, range_of, seconds_in};
ghost use Rattle.command_words.specs.RequestPlain.{AreSeconds, FitsHost, IsInOrder};
ghost use Rattle.rule_values.specs.Parts.{IsCutAt};

use crate::reading::{has_flag, number_in, value_in};
use crate::{HostOptions, MAX_PORT, MAX_SECONDS, PortRange};
use base::read_number;
use clap::ArgMatches;

/// The log, the clocks and the ports of a match of so many clients.
#[tactic(auto, unfolding(crate::specs::Reading::host_in))]
pub(crate) fn host_in(found: &ArgMatches<'_>, clients: u8) -> Option<HostOptions>
    ensures value { result ≡ host_in clients (rows_of (found_of found.now)) }
    ensures fits { IfSome result FitsHost }
{
    let patience = seconds_in(found, "patience")?;
    let lobby = seconds_in(found, "lobby")?;
    let udp_ports = ports_in(found, clients)?;
    Some(HostOptions {
        is_quiet: has_flag(found, "quiet"),
        patience,
        lobby,
        udp_ports,
    })
}

/// The seconds that an option writes, 1 to `MAX_SECONDS`, if it is given.
#[tactic(auto, unfolding(crate::specs::Reading::seconds_in))]
fn seconds_in(found: &ArgMatches<'_>, option: &str) -> Option<Option<u32>>
    ensures value { result ≡ seconds_in option.now (rows_of (found_of found.now)) }
    ensures fits { IfSome result (λ given. IfSome given AreSeconds) }
{
    match number_in(found, option) {
        Some(number) if 1 <= number && number <= MAX_SECONDS => Some(Some(number)),
        Some(_) => None,
        None => Some(None),
    }
}

/// The ports of so many clients, if they are given.
#[tactic(auto, unfolding(crate::specs::Reading::ports_in))]
fn ports_in(found: &ArgMatches<'_>, clients: u8) -> Option<Option<PortRange>>
    ensures value { result ≡ ports_in clients (rows_of (found_of found.now)) }
    ensures fits { IfSome result (λ given. IfSome given IsInOrder) }
{
    match value_in(found, "udp-ports") {
        Some(text) => Some(Some(ports_of(clients, text)?)),
        None => Some(None),
    }
}

/// The ports that two numbers with a minus between them write, where there are as many as clients.
#[tactic(auto, unfolding(crate::specs::Reading::ports_of))]
fn ports_of(clients: u8, text: &str) -> Option<PortRange>
    ensures value { result ≡ ports_of clients text.now }
    ensures fits { IfSome result IsInOrder }
{
    let (first, last) = halves(text)?;
    let first = read_number(first.as_bytes())?;
    let last = read_number(last.as_bytes())?;
    range_of(clients, first, last)
}

/// What stands before the first minus and after it, where there is one.
fn halves(text: &str) -> Option<(&str, &str)>
    ensures { IsCutAt 45 text.now result }
{
    text.split_once('-')
}

/// The ports from one number to another, where they are ports, and as many as clients.
fn range_of(clients: u8, first: u64, last: u64) -> Option<PortRange>
    ensures value { result ≡ range_of clients first last }
    ensures fits { IfSome result IsInOrder }
{
    if 1 <= first
        && first <= last
        && last <= u64::from(MAX_PORT)
        && u64::from(clients) <= last - first + 1
    {
        Some(PortRange {
            first: first as u16,
            last: last as u16,
        })
    } else {
        None
    }
}
