//! Ties. Harvesters of small worlds, with what is left of them, are recorded command lines in the
//! crate `case_runs`.

use game_model::Ore;
use harvest::nearest_ore;
use std::test::Fail;
use world_units::CPos;

/// The first is alone; then one is nearer in a farther row, one equally near in a lesser row, and
/// one there in a lesser column.
#[test]
fn equally_near_by_row_then_column(rt: HostRuntime) -> Result<(), Fail> {
    let middle = CPos { x: 2, y: 2 };
    let mut ore = Ore::create(rt.alloc(), 5, 4)?;
    ore.set(CPos { x: 4, y: 1 }, 1);
    assert!(rt; nearest_ore(&ore, middle) == Some(CPos { x: 4, y: 1 }));
    ore.set(CPos { x: 2, y: 3 }, 1);
    assert!(rt; nearest_ore(&ore, middle) == Some(CPos { x: 2, y: 3 }));
    ore.set(CPos { x: 3, y: 2 }, 1);
    assert!(rt; nearest_ore(&ore, middle) == Some(CPos { x: 3, y: 2 }));
    ore.set(CPos { x: 1, y: 2 }, 1);
    assert!(rt; nearest_ore(&ore, middle) == Some(CPos { x: 1, y: 2 }));
    Ok(())
}
