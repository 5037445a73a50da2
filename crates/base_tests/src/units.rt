//! Angles, directions, cells and distances.

use world_units::{
    CPos, DIRECTIONS, EAST, FULL_TURN, NORTH, NORTH_EAST, NORTH_WEST, SOUTH, SOUTH_EAST,
    SOUTH_WEST, WAngle, WEST, add_angle, dir_angle, dist_sq, leg_length, opposite, step,
    turn_towards, turns_arrive,
};

#[test]
fn turns(rt: HostRuntime) {
    let rows = [
        (1000, 24, 16, 1016),
        (1000, 24, 64, 24),
        (0, 512, 16, 1008),
        (24, 1000, 16, 8),
        (24, 1000, 48, 1000),
        (7, 7, 0, 7),
        (0, 513, 65535, 513),
    ];
    for (facing, aim, by, want) in rows {
        let (facing, aim) = (
            WAngle::new(facing % FULL_TURN),
            WAngle::new(aim % FULL_TURN),
        );
        turns_arrive(facing, aim, by, 3);
        assert_eq!(rt;
            turn_towards(facing, aim, by).units(),
            want,
            "at {facing:?}"
        );
    }
}

#[test]
fn directions(rt: HostRuntime) {
    let start = CPos { x: 0, y: 9 };
    let rows = [
        (NORTH, 0, 1024, Some((0, 8)), SOUTH),
        (NORTH_EAST, 896, 1448, Some((1, 8)), SOUTH_WEST),
        (EAST, 768, 1024, Some((1, 9)), WEST),
        (SOUTH_EAST, 640, 1448, Some((1, 10)), NORTH_WEST),
        (SOUTH, 512, 1024, Some((0, 10)), NORTH),
        (SOUTH_WEST, 384, 1448, None, NORTH_EAST),
        (WEST, 256, 1024, None, EAST),
        (NORTH_WEST, 128, 1448, None, SOUTH_EAST),
    ];
    for (direction, facing, leg, cell, back) in rows {
        let direction = direction % DIRECTIONS;
        assert_eq!(rt; dir_angle(direction).units(), facing, "at {direction}");
        assert_eq!(rt; leg_length(direction), leg, "at {direction}");
        assert_eq!(rt;
            step(start, direction).map(|p| (p.x, p.y)),
            cell,
            "at {direction}"
        );
        assert_eq!(rt; opposite(direction), back, "at {direction}");
    }
}

#[test]
fn same_cells(rt: HostRuntime) {
    let cell = CPos { x: 3, y: 9 };
    assert!(rt; cell == CPos { x: 3, y: 9 });
    assert!(rt; cell != CPos { x: 9, y: 3 } && cell != CPos { x: 3, y: 8 });
}

#[test]
fn sums_and_distances(rt: HostRuntime) {
    assert_eq!(rt; add_angle(WAngle::new(1000), WAngle::new(24)).units(), 0);
    assert_eq!(rt;
        add_angle(WAngle::new(1023), WAngle::new(1023)).units(),
        1022
    );
    assert_eq!(rt;
        dist_sq(CPos { x: 3, y: 9 }, CPos { x: 6, y: 5 }),
        25 * 1024 * 1024
    );
    assert_eq!(rt;
        dist_sq(CPos { x: 0, y: 0 }, CPos { x: 255, y: 255 }),
        136_367_308_800
    );
}
