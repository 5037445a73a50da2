//! The outside as the core sees it: where bytes come from, where they go, files, and links.
//!
//! Each of `Source`, `Sink`, `Disk` and `Net` has a count of faults that never falls. Its contents
//! are observable, so that contracts can speak of them, or opaque. A call fails only where the
//! count rose in it, and what is observable changes only as the call says. The memory forms are
//! observable and fail at the calls that they were told to; the adapters over std's writers and
//! files are opaque. A real net is one over a `Transport`, which makes the links, such as TCP. A
//! `Gate` holds the threads of a match where a test wants them held, and lends the `Watch` to which
//! a match over links tells what happens. It stands on `base`.
#![tactic(auto)]

mod coming_link;
mod disk;
mod disk_error;
mod failed;
mod failing_call;
mod file_disk;
mod gate;
mod hold_gate;
mod match_event;
mod mem_disk;
mod mem_link;
mod mem_net;
mod mem_sink;
mod mem_source;
mod mem_watch;
mod net;
mod opaque_link;
mod remaining;
mod schedule;
mod sink;
mod source;
mod std_sink;
mod std_source;
mod stored_file;
mod sure_disk;
mod sure_link;
mod sure_net;
mod sure_sink;
mod sure_source;
mod tcp;
mod tcp_dial;
mod tcp_end;
mod tcp_socket;
mod transport;
mod transport_net;
mod watch;
mod watched_gate;
mod whole_file;

pub use disk::Disk;
pub use disk_error::DiskError;
pub use failed::Failed;
pub use failing_call::{FailingCall, Remains};
pub use file_disk::FileDisk;
pub use gate::{Gate, NoGate};
pub use hold_gate::{HoldGate, MAX_HOLD_TURNS};
pub use match_event::{MatchEvent, NoGreeting};
pub use mem_disk::MemDisk;
pub use mem_net::MemNet;
pub use mem_sink::MemSink;
pub use mem_source::MemSource;
pub use mem_watch::MemWatch;
pub use net::{MAX_LINKS, Net};
pub use sink::Sink;
pub use source::Source;
pub use std_sink::StdSink;
pub use std_source::StdSource;
pub use sure_disk::SureDisk;
pub use sure_net::SureNet;
pub use sure_sink::SureSink;
pub use sure_source::SureSource;
pub use tcp::{Tcp, TcpNet};
pub use tcp_socket::TcpSocket;
pub use transport::Transport;
pub use transport_net::TransportNet;
pub use watch::{NoWatch, Watch};
pub use watched_gate::WatchedGate;
