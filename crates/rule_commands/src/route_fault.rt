ghost use Rattle.std.specs.Prelude.{◌≡◌};
ghost use Rattle.rule_commands.specs.Routes.{cause_of, route_refusal};
ghost use Rattle.command_answers.specs.Stop.{IsRefusal};

use command_answers::Stop;

/// Why a route is refused once its files are accepted. The first cause in this order decides.
#[derive(Clone, Copy, Debug)]
pub enum RouteFault {
    /// The rules have no kind of this name.
    NoKind,
    /// The kind hasn't the trait `Mobile`.
    NoMobile,
    /// The start or the goal isn't on the map.
    OffMap,
}

/// The cause, as it is printed.
fn cause(fault: RouteFault) -> &'static str
    ensures { result.now ≡ cause_of fault }
{
    match fault {
        RouteFault::NoKind => "NoKind",
        RouteFault::NoMobile => "NoMobile",
        RouteFault::OffMap => "OffMap",
    }
}

/// Refuses what is asked for.
pub fn route_stop<'a>(fault: RouteFault) -> Stop<'a>
    ensures { IsRefusal result (route_refusal fault) }
{
    Stop::Refused {
        name: "route",
        place: 0,
        cause: cause(fault),
    }
}
