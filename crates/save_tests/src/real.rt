//! Saves of played matches, with the rules and the map that they are of.

/// A save in hexadecimal digits, and what it is of.
pub(crate) struct RealSave {
    pub(crate) rules: &'static str,
    pub(crate) map: &'static str,
    pub(crate) save: &'static str,
    /// The number of the rules.
    pub(crate) number: u64,
}

/// Three actors of two clients, one of them with several activities.
pub(crate) const QUEUED: RealSave = RealSave {
    rules: "\
    ^V:\n\
    \tMobile:\n\
    \t\tSpeed: 700\n\
    \t\tTurnSpeed: 512\n\
    \t\tRoughCost: 0\n\
    proc:\n\
    \tHealth:\n\
    \t\tHP: 10\n\
    \tBuilding:\n\
    \tRefinery:\n\
    \t\tBaleValue: 7\n\
    tower:\n\
    \tHealth:\n\
    \t\tHP: 25\n\
    \tBuilding:\n\
    \tArmament:\n\
    \t\tRange: 131072\n\
    \t\tDamage: 1000000\n\
    \t\tReload: 2\n\
    \tMobile:\n\
    \tBuildable:\n\
    \t\tQueue: V\n\
    gun:\n\
    \tInherits: ^V\n\
    \tHealth:\n\
    \t\tHP: 400\n\
    \tArmament:\n\
    \t\tRange: 131072\n\
    \t\tDamage: 1000000\n\
    \t\tSpread: 1000000\n\
    \t\tReload: 7\n\
    \tBuildable:\n\
    \t\tQueue: V\n\
    \t\tBuildDuration: 9\n\
    \t\tNeeds: proc\n\
    \tValued:\n\
    \t\tCost: 50\n\
    fact:\n\
    \tHealth:\n\
    \t\tHP: 40\n\
    \tBuilding:\n\
    \tProduction:\n\
    \t\tProduces: V,W\n\
    car:\n\
    \tInherits: ^V\n\
    \tMobile:\n\
    \t\tSpeed: 1\n\
    \tBuildable:\n\
    \t\tQueue: V\n\
    \t\tBuildDuration: 1\n\
    \tHealth:\n\
    harv:\n\
    \tInherits: ^V\n\
    \tHealth:\n\
    \t\tHP: 3000\n\
    \tHarvester:\n\
    \t\tCapacity: 5\n\
    \t\tBaleLoadDelay: 2\n\
    \t\tBaleUnloadDelay: 1\n\
    \tBuildable:\n\
    \t\tQueue: V, W\n\
    \t\tBuildDuration: 6\n\
    \tValued:\n\
    \t\tCost: 100\n\
    rock:\n\
    \tHealth:\n\
    \t\tHP: 5\n\
    ",
    map: "\
    Size: 5,3\n\
    Cash: 1999999990\n\
    Tiles:\n\
    \t0: .....\n\
    \t1: .....\n\
    \t2: .....\n\
    Ore:\n\
    \t0: .....\n\
    \t1: .....\n\
    \t2: .....\n\
    Actors:\n\
    \ta0: proc\n\
    \t\tOwner: 0\n\
    \t\tLocation: 3,1\n\
    \t\tFacing: 768\n\
    \ta1: harv\n\
    \t\tOwner: 0\n\
    \t\tLocation: 4,0\n\
    \t\tFacing: 384\n\
    \ta2: fact\n\
    \t\tOwner: Neutral\n\
    \t\tLocation: 4,2\n\
    \t\tFacing: 0\n\
    ",
    save: "\
    4c5353560100707c01b90226e8c5090000000503090000005ee0ef68000000000000000004000000\
    0102f693357700f693357700030000000100000000000003010003000a0000000000000000000200\
    00000500000300000100b80b00000000000007010202000303020000010100010001020200030100\
    00000003000000000003030000000000030000000300ff0402000000280000000000000000000000\
    00000000000000000000000000\
    ",
    number: 0xc5e8_2602_b901_7c70,
};

/// Ten actors of one client: one is on a leg, one attacks, one builds.
pub(crate) const AT_WORK: RealSave = RealSave {
    rules: "\
    ^V:\n\
    \tMobile:\n\
    \t\tSpeed: 700\n\
    \t\tTurnSpeed: 512\n\
    \t\tWaterCost: 3\n\
    fact:\n\
    \tHealth:\n\
    \t\tHP: 40\n\
    \tBuilding:\n\
    \tProduction:\n\
    \t\tProduces: V,W\n\
    rock:\n\
    \tHealth:\n\
    \t\tHP: 5\n\
    car:\n\
    \tInherits: ^V\n\
    \tMobile:\n\
    \t\tSpeed: 1448\n\
    \tBuildable:\n\
    \t\tQueue: V\n\
    \t\tBuildDuration: 1\n\
    \tProduction:\n\
    \t\tProduces: V\n\
    gun:\n\
    \tInherits: ^V\n\
    \tHealth:\n\
    \t\tHP: 40\n\
    \tArmament:\n\
    \t\tRange: 6c0\n\
    \t\tDamage: 12\n\
    \t\tSpread: 3\n\
    \t\tReload: 3\n\
    \tBuildable:\n\
    \t\tQueue: V\n\
    \t\tBuildDuration: 9\n\
    \t\tNeeds: \n\
    \tValued:\n\
    \t\tCost: 120\n\
    tower:\n\
    \tHealth:\n\
    \t\tHP: 10\n\
    \tBuilding:\n\
    \tArmament:\n\
    \t\tRange: 6c0\n\
    \t\tDamage: 12\n\
    \t\tReload: 2\n\
    proc:\n\
    \tHealth:\n\
    \t\tHP: 400\n\
    \tBuilding:\n\
    \tRefinery:\n\
    \t\tBaleValue: 7\n\
    \tProduction:\n\
    \t\tProduces: W\n\
    harv:\n\
    \tInherits: ^V\n\
    \tHealth:\n\
    \t\tHP: 400\n\
    \tHarvester:\n\
    \t\tCapacity: 20\n\
    \t\tBaleLoadDelay: 2\n\
    \t\tBaleUnloadDelay: 4\n\
    \tBuildable:\n\
    \t\tQueue: V, W\n\
    \t\tBuildDuration: 6\n\
    \tValued:\n\
    \t\tCost: 400\n\
    ",
    map: "\
    Size: 16,4\n\
    Cash: 1999999990\n\
    Tiles:\n\
    \t0: ...r..r....=....\n\
    \t1: ..r.......=.r...\n\
    \t2: .=.....r=....r=.\n\
    \t3: ...=..=..=......\n\
    Ore:\n\
    \t0: .............9.9\n\
    \t1: ................\n\
    \t2: ..........9...9.\n\
    \t3: ...........99...\n\
    Actors:\n\
    \ta0: harv\n\
    \t\tOwner: 0\n\
    \t\tLocation: 5,0\n\
    \ta1: proc\n\
    \t\tOwner: 0\n\
    \t\tLocation: 5,2\n\
    \t\tFacing: 128\n\
    \ta2: fact\n\
    \t\tOwner: 0\n\
    \t\tLocation: 7,3\n\
    \t\tFacing: 640\n\
    \ta3: gun\n\
    \t\tOwner: 0\n\
    \t\tLocation: 0,0\n\
    \ta4: fact\n\
    \t\tOwner: 6\n\
    \t\tLocation: 12,3\n\
    \t\tFacing: 1023\n\
    \ta5: gun\n\
    \t\tOwner: Neutral\n\
    \t\tLocation: 0,3\n\
    \ta6: harv\n\
    \t\tOwner: 4\n\
    \t\tLocation: 8,2\n\
    \t\tFacing: 384\n\
    \ta7: car\n\
    \t\tOwner: 0\n\
    \t\tLocation: 15,0\n\
    \t\tFacing: 1023\n\
    \ta8: gun\n\
    \t\tOwner: 0\n\
    \t\tLocation: 13,1\n\
    \t\tFacing: 0\n\
    \ta9: car\n\
    \t\tOwner: 6\n\
    \t\tLocation: 3,0\n\
    \t\tFacing: 640\n\
    ",
    save: "\
    4c5353560100a1901be6cd4382f2030000001004030000007b7b1ca700000000000000000b000000\
    01017e933577000a0000000100000006000005000000009001000000000000000002000000050000\
    05028000009001000000000000000003000000000000070380020028000000000000000001030006\
    0004000000030000000000000028000000000000000000050000000000ff0c03ff03002800000000\
    0000000000060000000300ff000300000028000000000000000000070000000600ff080280010090\
    010000000000000000080000000200000f00ff030001000000000000000000090000000300000c00\
    8000010778050000280000000000000001020600000000000a0000000200ff030080020001000000\
    000000000000000000000000000000000000005a005a000000000000000000000000000000000000\
    00000000000000005a0000005a0000000000000000000000005a5a000000\
    ",
    number: 0xf282_43cd_e61b_90a1,
};
