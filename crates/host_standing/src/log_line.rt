use crate::match_standing::{KickedBy, Said};
use game_io::{MatchEvent, NoGreeting};
use std::fmt;
use std::fmt::{Display, Formatter, Write};

/// A line of the log.
#[derive(Clone, Copy, Debug, PartialEq, Eq)]
pub struct LogLine {
    /// When it was said, in thousandths of a second since the host's start.
    pub at: u64,
    /// What is said.
    pub said: Said,
}

impl Display for LogLine {
    fn fmt<W: Write>(&self, f: &mut Formatter<W>) -> fmt::Result {
        write!(f, "{}.{:03} ", self.at / 1_000, self.at % 1_000)?;
        match self.said {
            Said::Happened(event) => write_event(f, event),
            Said::Stands { frames, waits_for } => {
                write!(f, "frames {frames}")?;
                match waits_for {
                    Some(client) => write!(f, ", waits for client {client}"),
                    None => Ok(()),
                }
            }
            Said::Kicked { client, by } => {
                write!(f, "client {client} is kicked by {}", kicker(by))
            }
            Said::NoClient { client } => write!(f, "note: there is no client {client}"),
            Said::SaysNothing => f.write_str("note: a line is neither `kick C` nor `stop`"),
            Said::NoPorts => f.write_str("note: --udp-ports means nothing at this address"),
            Said::NoListening => f.write_str("fault link: this address can't be listened at"),
            Said::NoLink => f.write_str("fault link: no link has come"),
            Said::NoAccepting => f.write_str("fault link: the next link can't be accepted"),
            Said::NoServer => f.write_str("fault link: no server has answered at this address"),
        }
    }
}

/// By what a client is kicked, in words.
fn kicker(by: KickedBy) -> &'static str {
    match by {
        KickedBy::Line => "the console",
        KickedBy::Stop => "`stop`",
        KickedBy::Clock => "the clock",
    }
}

/// Writes what happened.
fn write_event<W: Write>(f: &mut Formatter<W>, event: MatchEvent) -> fmt::Result {
    match event {
        MatchEvent::Listens { at: Some(at) } => write!(f, "listens at {at}"),
        MatchEvent::Listens { at: None } => write!(f, "listens"),
        MatchEvent::LinkCame {
            client,
            from: Some(from),
        } => write!(f, "client {client} has a link from {from}"),
        MatchEvent::LinkCame { client, from: None } => write!(f, "client {client} has no link"),
        MatchEvent::Greets { client } => write!(f, "client {client} greets"),
        MatchEvent::GreetsNot { client, why } => {
            write!(f, "client {client} does not greet: {}", reason(why))
        }
        MatchEvent::WaitsFor { frame, client } => {
            write!(f, "frames {frame}, waits for client {client}")
        }
        MatchEvent::Departs { client, frame } => write!(
            f,
            "client {client} leaves at frame {frame}"
        ),
        MatchEvent::Ticked { frames } => write!(f, "frames {frames}"),
        MatchEvent::Over { frames } => write!(f, "frames {frames}, the match is over"),
    }
}

/// Why a link does not greet, in words.
fn reason(why: NoGreeting) -> &'static str {
    match why {
        NoGreeting::OtherVersion => "another version",
        NoGreeting::OtherRules => "other rules or another map",
        NoGreeting::NoHello => "another packet than a greeting",
        NoGreeting::NoPacket => "bytes that are no packet",
        NoGreeting::Ended => "its link ended",
        NoGreeting::Lost => "its link failed",
        NoGreeting::NoMemory => "out of memory",
    }
}
