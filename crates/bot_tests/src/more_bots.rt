//! Matches with two bots or three.

use crate::match_case::MatchCase;

/// Two bots with armed actors and factories, one of them pays for what it builds.
pub(crate) const TWO_BOTS: MatchCase = MatchCase {
    rules: "\
    ^V:\n\
    \tMobile:\n\
    \t\tSpeed: 700\n\
    \t\tTurnSpeed: 512\n\
    \t\tClearCost: 1\n\
    rock:\n\
    \tHealth:\n\
    \t\tHP: 5\n\
    gun:\n\
    \tInherits: ^V\n\
    \tHealth:\n\
    \t\tHP: 100\n\
    \tArmament:\n\
    \t\tRange: 5c0\n\
    \t\tDamage: 10\n\
    \t\tSpread: 1000000\n\
    \t\tReload: 1\n\
    \tBuildable:\n\
    \t\tQueue: V\n\
    \t\tBuildDuration: 0\n\
    \t\tNeeds: gun\n\
    \tValued:\n\
    \t\tCost: 50\n\
    fact:\n\
    \tHealth:\n\
    \t\tHP: 10\n\
    \tBuilding:\n\
    \tProduction:\n\
    \t\tProduces: V\n\
    tower:\n\
    \tHealth:\n\
    \t\tHP: 25\n\
    \tBuilding:\n\
    \tArmament:\n\
    \t\tRange: 4c0\n\
    \t\tDamage: 2\n\
    \t\tReload: 5\n\
    car:\n\
    \tInherits: ^V\n\
    \tMobile:\n\
    \t\tSpeed: 512\n\
    \tBuildable:\n\
    \t\tQueue: V\n\
    \t\tBuildDuration: 0\n\
    \tRefinery:\n\
    harv:\n\
    \tInherits: ^V\n\
    \tHealth:\n\
    \t\tHP: 25\n\
    \tHarvester:\n\
    \t\tCapacity: 5\n\
    \t\tBaleLoadDelay: 2\n\
    \t\tBaleUnloadDelay: 2\n\
    \tBuildable:\n\
    \t\tQueue: V, W\n\
    \t\tBuildDuration: 2\n\
    \tValued:\n\
    \t\tCost: 400\n\
    proc:\n\
    \tHealth:\n\
    \t\tHP: 3000\n\
    \tBuilding:\n\
    \tRefinery:\n\
    \t\tBaleValue: 7\n\
    \tProduction:\n\
    \t\tProduces: W\n\
    ",
    map: "\
    Size: 16,4\n\
    Cash: 500\n\
    Tiles:\n\
    \t0: .....X.........X\n\
    \t1: ..........X.....\n\
    \t2: ........X......X\n\
    \t3: .X.X...........X\n\
    Actors:\n\
    \ta0: proc\n\
    \t\tOwner: 1\n\
    \t\tLocation: 13,3\n\
    \t\tFacing: 640\n\
    \ta1: fact\n\
    \t\tOwner: Neutral\n\
    \t\tLocation: 3,3\n\
    \t\tFacing: 0\n\
    \ta2: fact\n\
    \t\tOwner: 2\n\
    \t\tLocation: 2,2\n\
    \t\tFacing: 1023\n\
    \ta3: gun\n\
    \t\tOwner: Neutral\n\
    \t\tLocation: 13,2\n\
    \ta4: tower\n\
    \t\tOwner: 2\n\
    \t\tLocation: 5,2\n\
    \t\tFacing: 512\n\
    \ta5: gun\n\
    \t\tOwner: 3\n\
    \t\tLocation: 2,1\n\
    \ta6: fact\n\
    \t\tOwner: 3\n\
    \t\tLocation: 1,2\n\
    \ta7: car\n\
    \t\tOwner: 0\n\
    \t\tLocation: 6,0\n\
    \t\tFacing: 256\n\
    \ta8: tower\n\
    \t\tOwner: 3\n\
    \t\tLocation: 1,0\n\
    \ta9: harv\n\
    \t\tOwner: 7\n\
    \t\tLocation: 3,1\n\
    \t\tFacing: 384\n\
    ",
    script: "\
    script 2 450437527\n\
    0\n\
    1 move 14 1 3 ; produce 1 4 ; move 13 0 2\n\
    1\n\
    1 move+ 22 1 1 ; move 20 0 2\n\
    1\n\
    ",
    bots: 2,
    frames: 4,
    hash: 0xe0f6_a12c_8897_de58,
    actors: 13,
    cash: &[500, 500, 500, 300],
};

/// Three bots: a factory with an armed unit, a rock, and a tower.
pub(crate) const THREE_BOTS: MatchCase = MatchCase {
    rules: "\
    ^V:\n\
    \tMobile:\n\
    \t\tSpeed: 2000\n\
    \t\tTurnSpeed: 100\n\
    proc:\n\
    \tHealth:\n\
    \t\tHP: 3000\n\
    \tBuilding:\n\
    \tRefinery:\n\
    \t\tBaleValue: 25\n\
    fact:\n\
    \tHealth:\n\
    \t\tHP: 40\n\
    \tBuilding:\n\
    \tProduction:\n\
    \t\tProduces: V,W\n\
    rock:\n\
    \tHealth:\n\
    \t\tHP: 5\n\
    gun:\n\
    \tInherits: ^V\n\
    \tHealth:\n\
    \t\tHP: 100\n\
    \tArmament:\n\
    \t\tRange: 2c0\n\
    \t\tDamage: 1\n\
    \t\tSpread: 0\n\
    \t\tReload: 1\n\
    \tBuildable:\n\
    \t\tQueue: V\n\
    \t\tBuildDuration: 9\n\
    \t\tNeeds: fact,proc\n\
    \tValued:\n\
    \t\tCost: 50\n\
    car:\n\
    \tInherits: ^V\n\
    \tMobile:\n\
    \t\tSpeed: 700\n\
    \tBuildable:\n\
    \t\tQueue: V\n\
    \t\tBuildDuration: 0\n\
    \tHealth:\n\
    tower:\n\
    \tHealth:\n\
    \t\tHP: 3000\n\
    \tBuilding:\n\
    \tArmament:\n\
    \t\tRange: 2c0\n\
    \t\tDamage: 8\n\
    \t\tReload: 2\n\
    \tMobile:\n\
    \tBuildable:\n\
    \t\tQueue: V\n\
    harv:\n\
    \tInherits: ^V\n\
    \tHealth:\n\
    \t\tHP: 10\n\
    \tHarvester:\n\
    \t\tCapacity: 20\n\
    \t\tBaleLoadDelay: 0\n\
    \t\tBaleUnloadDelay: 1\n\
    \tBuildable:\n\
    \t\tQueue: V, W\n\
    \t\tBuildDuration: 6\n\
    \tValued:\n\
    \t\tCost: 100\n\
    ",
    map: "\
    Size: 5,3\n\
    Tiles:\n\
    \t0: ....~\n\
    \t1: .....\n\
    \t2: ..XX~\n\
    Ore:\n\
    \t0: .2.12\n\
    \t1: .1..2\n\
    \t2: 1.1..\n\
    Actors:\n\
    \ta0: tower\n\
    \t\tOwner: 3\n\
    \t\tLocation: 4,2\n\
    \t\tFacing: 640\n\
    \ta1: rock\n\
    \t\tOwner: 2\n\
    \t\tLocation: 2,1\n\
    \ta2: proc\n\
    \t\tOwner: 4\n\
    \t\tLocation: 0,2\n\
    \t\tFacing: 256\n\
    \ta3: rock\n\
    \t\tOwner: 3\n\
    \t\tLocation: 2,2\n\
    \t\tFacing: 256\n\
    \ta4: fact\n\
    \t\tOwner: 1\n\
    \t\tLocation: 4,1\n\
    \t\tFacing: 1023\n\
    \ta5: gun\n\
    \t\tOwner: 1\n\
    \t\tLocation: 0,0\n\
    \t\tFacing: 0\n\
    \ta6: fact\n\
    \t\tOwner: 0\n\
    \t\tLocation: 0,1\n\
    \t\tFacing: 1023\n\
    \ta7: proc\n\
    \t\tOwner: 3\n\
    \t\tLocation: 3,1\n\
    \t\tFacing: 640\n\
    \ta8: harv\n\
    \t\tOwner: Neutral\n\
    \t\tLocation: 3,0\n\
    \t\tFacing: 128\n\
    \ta9: rock\n\
    \t\tOwner: 6\n\
    \t\tLocation: 2,0\n\
    ",
    script: "\
    script 1 0\n\
    0 harvest+ 14 0 0\n\
    0 attack 21 1 ; attack 12 8\n\
    0 donate 0 1 ; produce 7 4\n\
    0\n\
    0 attack 8 0\n\
    ",
    bots: 3,
    frames: 5,
    hash: 0xb0a6_6aad_9d68_236b,
    actors: 11,
    cash: &[1000, 1000, 1000, 1000],
};

/// Two bots with a factory each beside three players, of which one departs at once.
pub(crate) const A_DEPARTED_PLAYER: MatchCase = MatchCase {
    rules: "\
    ^V:\n\
    \tMobile:\n\
    \t\tSpeed: 700\n\
    \t\tTurnSpeed: 512\n\
    \t\tRoughCost: 0\n\
    car:\n\
    \tInherits: ^V\n\
    \tMobile:\n\
    \t\tSpeed: 256\n\
    \tBuildable:\n\
    \t\tQueue: V\n\
    \t\tBuildDuration: 0\n\
    gun:\n\
    \tInherits: ^V\n\
    \tHealth:\n\
    \t\tHP: 100\n\
    \tArmament:\n\
    \t\tRange: 2c0\n\
    \t\tDamage: 1\n\
    \t\tSpread: 10\n\
    \t\tReload: 7\n\
    \tBuildable:\n\
    \t\tQueue: V\n\
    \t\tBuildDuration: 4\n\
    \t\tNeeds: proc\n\
    \tValued:\n\
    \t\tCost: 50\n\
    fact:\n\
    \tHealth:\n\
    \t\tHP: 10\n\
    \tBuilding:\n\
    \tProduction:\n\
    \t\tProduces: W\n\
    rock:\n\
    \tHealth:\n\
    \t\tHP: 5\n\
    harv:\n\
    \tInherits: ^V\n\
    \tHealth:\n\
    \t\tHP: 100\n\
    \tRefinery:\n\
    \tHarvester:\n\
    \t\tCapacity: 20\n\
    \t\tBaleLoadDelay: 2\n\
    \t\tBaleUnloadDelay: 1\n\
    \tBuildable:\n\
    \t\tQueue: V, W\n\
    \t\tBuildDuration: 0\n\
    \tValued:\n\
    \t\tCost: 100\n\
    tower:\n\
    \tHealth:\n\
    \t\tHP: 400\n\
    \tBuilding:\n\
    \tArmament:\n\
    \t\tRange: 6c0\n\
    \t\tDamage: 1000000\n\
    \t\tReload: 2\n\
    \tMobile:\n\
    \tBuildable:\n\
    \t\tQueue: V\n\
    proc:\n\
    \tHealth:\n\
    \t\tHP: 1\n\
    \tBuilding:\n\
    \tRefinery:\n\
    \t\tBaleValue: 7\n\
    ",
    map: "\
    Size: 8,8\n\
    Cash: 2000\n\
    Tiles:\n\
    \t0: ........\n\
    \t1: ........\n\
    \t2: ........\n\
    \t3: ........\n\
    \t4: ........\n\
    \t5: ........\n\
    \t6: ........\n\
    \t7: ........\n\
    Ore:\n\
    \t0: ..111...\n\
    \t1: ....1.11\n\
    \t2: .....1..\n\
    \t3: 1....1..\n\
    \t4: ....1...\n\
    \t5: ..11....\n\
    \t6: 1..1..1.\n\
    \t7: ....1...\n\
    Actors:\n\
    \ta0: harv\n\
    \t\tOwner: 1\n\
    \t\tLocation: 6,7\n\
    \ta1: fact\n\
    \t\tOwner: 3\n\
    \t\tLocation: 0,1\n\
    \t\tFacing: 673\n\
    \ta2: fact\n\
    \t\tOwner: 2\n\
    \t\tLocation: 4,7\n\
    \t\tFacing: 640\n\
    ",
    script: "\
    script 3 1\n\
    0 stop 13\n\
    0 attack+ 15 3\n\
    2 attack+ 11 2\n\
    0 move 15 2 1 ; move 13 3 1\n\
    2 attack 9 3 ; move 7 6 6 ; harvest 7 5 3\n\
    ",
    bots: 2,
    frames: 3,
    hash: 0x207b_8207_054f_9faa,
    actors: 6,
    cash: &[2000, 2000, 2000, 1700, 2000],
};
