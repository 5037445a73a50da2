ghost use Rattle.std.specs.Prelude.{◌≡◌, ◌≤◌};
ghost use Rattle.game_model.specs.Terrain.{cost_on, number_of, terrain_of};

use rule_traits::Costs;

/// What the ground of a cell is.
#[derive(Clone, Copy, Debug, PartialEq, Eq)]
pub enum Terrain {
    /// Clear ground.
    Clear,
    /// A road.
    Road,
    /// Rough ground.
    Rough,
    /// Water.
    Water,
    /// Rock, which nothing enters.
    Rock,
}

/// What it costs to enter a cell of this terrain, 0 to 10. It can't be entered where that is 0, as
/// rock.
pub fn cost_on(costs: &Costs, terrain: Terrain) -> u8
    ensures { result ≡ cost_on costs.now terrain }
{
    match terrain {
        Terrain::Clear => costs.clear,
        Terrain::Road => costs.road,
        Terrain::Rough => costs.rough,
        Terrain::Water => costs.water,
        Terrain::Rock => 0,
    }
}

/// The number by which a terrain is stored, 0 to 4.
pub(crate) fn number_of(terrain: Terrain) -> u8
    ensures value { result ≡ number_of terrain }
    ensures small { result ≤ 4 }
{
    match terrain {
        Terrain::Clear => 0,
        Terrain::Road => 1,
        Terrain::Rough => 2,
        Terrain::Water => 3,
        Terrain::Rock => 4,
    }
}

/// The terrain that is stored by this number: rock where it is no terrain's.
pub(crate) fn terrain_of(number: u8) -> Terrain
    ensures { result ≡ terrain_of number }
{
    match number {
        0 => Terrain::Clear,
        1 => Terrain::Road,
        2 => Terrain::Rough,
        3 => Terrain::Water,
        _ => Terrain::Rock,
    }
}
