use base::NoMemory;

/// Why no match was played over a link.
#[derive(Debug, Drop)]
pub(crate) enum PlayFault {
    /// The net gave no link: its count of faults rose.
    Net,
    /// Out of memory. The match may have begun.
    NoMemory,
}

impl From<NoMemory> for PlayFault {
    ghost use Rattle.std.specs.Prelude.{◌≡◌};
    ghost use Rattle.link_commands.specs.declared.play_fault.PlayFault.TheVariants.{NoMemory};

    ghost from_gives = { λ _ fault. fault ≡ NoMemory };

    fn from(_error: NoMemory) -> Self {
        PlayFault::NoMemory
    }
}
