use crate::port_range::PortRange;

/// The most seconds that a clock of a served match may have: those of a day.
pub const MAX_SECONDS: u32 = 86_400;

/// What the arguments say of the log, the clocks and the ports of a match over links.
#[derive(Clone, Copy, Debug, PartialEq, Eq)]
pub struct HostOptions {
    /// Whether nothing is logged.
    pub is_quiet: bool,

    /// For how many seconds a frame is waited for, 1 to `MAX_SECONDS`, if a clock is wanted.
    pub patience: Option<u32>,

    /// For how many seconds the next link is waited for, 1 to `MAX_SECONDS`, if a clock is wanted.
    pub lobby: Option<u32>,

    /// The ports of the links over UDP, if they are given.
    pub udp_ports: Option<PortRange>,
}

impl HostOptions {
    ghost use Rattle.std.specs.Prelude.{◌≡◌};
    ghost use Rattle.command_words.specs.HostOptions.{no_options};

    /// None of the options is given.
    pub fn none() -> HostOptions
        ensures { result ≡ no_options }
    {
        HostOptions {
            is_quiet: false,
            patience: None,
            lobby: None,
            udp_ports: None,
        }
    }
}
