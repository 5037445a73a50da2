//! The numbers by which replays know their rules and maps. Replays that are recorded, run, migrated
//! and refused are recorded command lines of the crate `case_runs`.

use setup_files::rules_number;
use std::test::Fail;

#[test]
fn numbers_of_rules_and_maps(rt: HostRuntime) -> Result<(), Fail> {
    assert_eq!(rt; rules_number(rt.alloc(), b"", b"")?, 0xaf63_bd4c_8601_b7df);
    let of_map = rules_number(rt.alloc(), b"", b"Size: 4,4\nCash: 5\n")?;
    assert_eq!(rt; of_map, 0x1433_47ae_7e2a_e780);
    Ok(())
}
