//! Matches with one bot.

use crate::match_case::MatchCase;

/// A harvester and its refinery: two loads in ten frames.
pub(crate) const A_HARVESTER_DELIVERS: MatchCase = MatchCase {
    rules: "\
    proc:\n\
    \tBuilding:\n\
    \tRefinery:\n\
    harv:\n\
    \tMobile:\n\
    \t\tSpeed: 1024\n\
    \t\tTurnSpeed: 512\n\
    \tHarvester:\n\
    \t\tCapacity: 2\n\
    \t\tBaleLoadDelay: 1\n\
    \t\tBaleUnloadDelay: 1\n\
    ",
    map: "\
    Size: 3,1\n\
    Ore:\n\
    \t0: ..1\n\
    Actors:\n\
    \ta: proc\n\
    \t\tOwner: 1\n\
    \t\tLocation: 0,0\n\
    \tb: harv\n\
    \t\tOwner: 1\n\
    \t\tLocation: 1,0\n\
    \t\tFacing: 768\n\
    ",
    script: "\
    script 1 1\n\
    0\n\
    0\n\
    0\n\
    0\n\
    0\n\
    0\n\
    0\n\
    0\n\
    0\n\
    0\n\
    ",
    bots: 1,
    frames: 10,
    hash: 0xedfd_beb6_5e06_40aa,
    actors: 2,
    cash: &[1000, 1050],
};

/// A harvester, a factory and an armed unit for each side, and no cash.
pub(crate) const WITHOUT_CASH: MatchCase = MatchCase {
    rules: "\
    ^V:\n\
    \tMobile:\n\
    \t\tSpeed: 1448\n\
    \t\tTurnSpeed: 512\n\
    car:\n\
    \tInherits: ^V\n\
    \tMobile:\n\
    \t\tSpeed: 0c300\n\
    \tBuildable:\n\
    \t\tQueue: V\n\
    \t\tBuildDuration: 3\n\
    \tProduction:\n\
    \t\tProduces: V\n\
    proc:\n\
    \tHealth:\n\
    \t\tHP: 10\n\
    \tBuilding:\n\
    \tRefinery:\n\
    \t\tBaleValue: 10000\n\
    tower:\n\
    \tHealth:\n\
    \t\tHP: 25\n\
    \tBuilding:\n\
    \tArmament:\n\
    \t\tRange: 4c0\n\
    \t\tDamage: 2\n\
    \t\tReload: 2\n\
    fact:\n\
    \tHealth:\n\
    \t\tHP: 25\n\
    \tBuilding:\n\
    \tProduction:\n\
    \t\tProduces: V\n\
    harv:\n\
    \tInherits: ^V\n\
    \tHealth:\n\
    \t\tHP: 25\n\
    \tHarvester:\n\
    \t\tCapacity: 2\n\
    \t\tBaleLoadDelay: 2\n\
    \t\tBaleUnloadDelay: 0\n\
    \tBuildable:\n\
    \t\tQueue: V, W\n\
    \t\tBuildDuration: 6\n\
    \tValued:\n\
    \t\tCost: 400\n\
    rock:\n\
    \tHealth:\n\
    \t\tHP: 5\n\
    gun:\n\
    \tInherits: ^V\n\
    \tHealth:\n\
    \t\tHP: 400\n\
    \tArmament:\n\
    \t\tRange: 3c512\n\
    \t\tDamage: 5\n\
    \t\tSpread: 3\n\
    \t\tReload: 7\n\
    \tBuildable:\n\
    \t\tQueue: V\n\
    \t\tBuildDuration: 4\n\
    \t\tNeeds: proc\n\
    \tValued:\n\
    \t\tCost: 300\n\
    ",
    map: "\
    Size: 6,6\n\
    Cash: 0\n\
    Tiles:\n\
    \t0: =r~r~=\n\
    \t1: r~=~.=\n\
    \t2: ~.~rr.\n\
    \t3: rr.~==\n\
    \t4: .rr~==\n\
    \t5: ==~~.=\n\
    Ore:\n\
    \t0: ......\n\
    \t1: ......\n\
    \t2: ......\n\
    \t3: ......\n\
    \t4: ......\n\
    \t5: ......\n\
    Actors:\n\
    \ta0: harv\n\
    \t\tOwner: 0\n\
    \t\tLocation: 0,1\n\
    \ta1: harv\n\
    \t\tOwner: 1\n\
    \t\tLocation: 5,3\n\
    \ta2: proc\n\
    \t\tOwner: 0\n\
    \t\tLocation: 2,3\n\
    \t\tFacing: 768\n\
    \ta3: proc\n\
    \t\tOwner: 1\n\
    \t\tLocation: 0,2\n\
    \t\tFacing: 1023\n\
    \ta4: fact\n\
    \t\tOwner: 0\n\
    \t\tLocation: 4,4\n\
    \t\tFacing: 0\n\
    \ta5: fact\n\
    \t\tOwner: 1\n\
    \t\tLocation: 1,5\n\
    \ta6: gun\n\
    \t\tOwner: 0\n\
    \t\tLocation: 3,3\n\
    \t\tFacing: 768\n\
    \ta7: gun\n\
    \t\tOwner: 1\n\
    \t\tLocation: 3,5\n\
    \t\tFacing: 1023\n\
    \ta8: harv\n\
    \t\tOwner: Neutral\n\
    \t\tLocation: 1,4\n\
    \t\tFacing: 128\n\
    \ta9: tower\n\
    \t\tOwner: Neutral\n\
    \t\tLocation: 1,1\n\
    \ta10: harv\n\
    \t\tOwner: Neutral\n\
    \t\tLocation: 3,1\n\
    ",
    script: "\
    script 1 2633240905\n\
    0\n\
    0\n\
    0 move 16 3 4\n\
    0\n\
    0\n\
    ",
    bots: 1,
    frames: 5,
    hash: 0xe315_9900_0a27_cfc4,
    actors: 12,
    cash: &[0, 0],
};

/// Armed actors of nobody, and a bot whose only actor is a rock.
pub(crate) const NEUTRAL_ACTORS_BETWEEN: MatchCase = MatchCase {
    rules: "\
    ^V:\n\
    \tMobile:\n\
    \t\tSpeed: 1024\n\
    \t\tTurnSpeed: 1023\n\
    rock:\n\
    \tHealth:\n\
    \t\tHP: 5\n\
    fact:\n\
    \tHealth:\n\
    \t\tHP: 400\n\
    \tBuilding:\n\
    \tProduction:\n\
    \t\tProduces: V,W\n\
    proc:\n\
    \tHealth:\n\
    \t\tHP: 400\n\
    \tBuilding:\n\
    \tRefinery:\n\
    \t\tBaleValue: 7\n\
    harv:\n\
    \tInherits: ^V\n\
    \tHealth:\n\
    \t\tHP: 400\n\
    \tRefinery:\n\
    \tHarvester:\n\
    \t\tCapacity: 2\n\
    \t\tBaleLoadDelay: 0\n\
    \t\tBaleUnloadDelay: 0\n\
    \tBuildable:\n\
    \t\tQueue: V, W\n\
    \t\tBuildDuration: 0\n\
    \tValued:\n\
    \t\tCost: 100\n\
    gun:\n\
    \tInherits: ^V\n\
    \tHealth:\n\
    \t\tHP: 1\n\
    \tArmament:\n\
    \t\tRange: 2c0\n\
    \t\tDamage: 0\n\
    \t\tSpread: 3\n\
    \t\tReload: 0\n\
    \tBuildable:\n\
    \t\tQueue: V\n\
    \t\tBuildDuration: 0\n\
    \t\tNeeds: fact,proc\n\
    \tValued:\n\
    \t\tCost: 120\n\
    tower:\n\
    \tHealth:\n\
    \t\tHP: 40\n\
    \tBuilding:\n\
    \tArmament:\n\
    \t\tRange: 2c0\n\
    \t\tDamage: 2\n\
    \t\tReload: 2\n\
    \tMobile:\n\
    \tBuildable:\n\
    \t\tQueue: V\n\
    car:\n\
    \tInherits: ^V\n\
    \tMobile:\n\
    \t\tSpeed: 256\n\
    \tBuildable:\n\
    \t\tQueue: V\n\
    \t\tBuildDuration: 0\n\
    \tRefinery:\n\
    ",
    map: "\
    Size: 10,6\n\
    Cash: 500\n\
    Tiles:\n\
    \t0: =.r.r~~..~\n\
    \t1: .r~~r..=.=\n\
    \t2: .r=~~r~=.r\n\
    \t3: ..rr.r.r..\n\
    \t4: ==rr=..=.=\n\
    \t5: .=~=~rr~==\n\
    Ore:\n\
    \t0: ..1....1..\n\
    \t1: 11........\n\
    \t2: 1.......1.\n\
    \t3: ....1...1.\n\
    \t4: 11...1....\n\
    \t5: .1.....1.1\n\
    Actors:\n\
    \ta0: gun\n\
    \t\tOwner: Neutral\n\
    \t\tLocation: 8,1\n\
    \ta1: harv\n\
    \t\tOwner: 1\n\
    \t\tLocation: 8,2\n\
    \t\tFacing: 944\n\
    \ta2: car\n\
    \t\tOwner: Neutral\n\
    \t\tLocation: 5,1\n\
    \t\tFacing: 768\n\
    \ta3: tower\n\
    \t\tOwner: Neutral\n\
    \t\tLocation: 7,0\n\
    \ta4: fact\n\
    \t\tOwner: 1\n\
    \t\tLocation: 1,3\n\
    \t\tFacing: 896\n\
    \ta5: rock\n\
    \t\tOwner: 2\n\
    \t\tLocation: 2,0\n\
    \t\tFacing: 512\n\
    ",
    script: "\
    script 1 9\n\
    0 attack 16 3 ; move 16 4 1 ; move 13 5 2\n\
    0 move 12 2 2 ; move 18 0 4 ; move 11 5 0\n\
    0 harvest 18 1 0\n\
    0\n\
    0 attack+ 8 4 ; harvest 6 1 5 ; donate 1 999\n\
    ",
    bots: 2,
    frames: 5,
    hash: 0x19c1_3a63_5aff_29e8,
    actors: 11,
    cash: &[500, 0, 500],
};

/// Two factories and a harvester of the bot.
pub(crate) const TWO_FACTORIES: MatchCase = MatchCase {
    rules: "\
    ^V:\n\
    \tMobile:\n\
    \t\tSpeed: 700\n\
    \t\tTurnSpeed: 512\n\
    \t\tWaterCost: 3\n\
    tower:\n\
    \tHealth:\n\
    \t\tHP: 10\n\
    \tBuilding:\n\
    \tArmament:\n\
    \t\tRange: 2c0\n\
    \t\tDamage: 1000000\n\
    \t\tReload: 2\n\
    \tMobile:\n\
    \tBuildable:\n\
    \t\tQueue: V\n\
    fact:\n\
    \tHealth:\n\
    \t\tHP: 1\n\
    \tBuilding:\n\
    \tProduction:\n\
    \t\tProduces: Other, V\n\
    car:\n\
    \tInherits: ^V\n\
    \tMobile:\n\
    \t\tSpeed: 0\n\
    \tBuildable:\n\
    \t\tQueue: V\n\
    \t\tBuildDuration: 0\n\
    rock:\n\
    \tHealth:\n\
    \t\tHP: 5\n\
    proc:\n\
    \tHealth:\n\
    \t\tHP: 10\n\
    \tBuilding:\n\
    \tRefinery:\n\
    \t\tBaleValue: 7\n\
    \tProduction:\n\
    \t\tProduces: W\n\
    harv:\n\
    \tInherits: ^V\n\
    \tHealth:\n\
    \t\tHP: 400\n\
    \tRefinery:\n\
    \tHarvester:\n\
    \t\tCapacity: 5\n\
    \t\tBaleLoadDelay: 4\n\
    \t\tBaleUnloadDelay: 4\n\
    \tBuildable:\n\
    \t\tQueue: V, W\n\
    \t\tBuildDuration: 0\n\
    \tValued:\n\
    \t\tCost: 100\n\
    gun:\n\
    \tInherits: ^V\n\
    \tHealth:\n\
    \t\tHP: 1\n\
    \tArmament:\n\
    \t\tRange: 128c0\n\
    \t\tDamage: 10\n\
    \t\tSpread: 0\n\
    \t\tReload: 1\n\
    \tBuildable:\n\
    \t\tQueue: V\n\
    \t\tBuildDuration: 1\n\
    \t\tNeeds: gun\n\
    \tValued:\n\
    \t\tCost: 300\n\
    ",
    map: "\
    Size: 10,6\n\
    Cash: 2000\n\
    Tiles:\n\
    \t0: .....X..X.\n\
    \t1: ..X...~.~.\n\
    \t2: .X..X..X..\n\
    \t3: X~...~.X..\n\
    \t4: ~.X..~~.~.\n\
    \t5: .~...~....\n\
    Ore:\n\
    \t0: .......2.1\n\
    \t1: .....112..\n\
    \t2: ..11.1...2\n\
    \t3: 12.1.1..2.\n\
    \t4: 1.1...1...\n\
    \t5: .21.1..211\n\
    Actors:\n\
    \ta0: fact\n\
    \t\tOwner: 4\n\
    \t\tLocation: 3,4\n\
    \ta1: harv\n\
    \t\tOwner: 1\n\
    \t\tLocation: 0,3\n\
    \t\tFacing: 206\n\
    \ta2: gun\n\
    \t\tOwner: Neutral\n\
    \t\tLocation: 8,0\n\
    \t\tFacing: 0\n\
    \ta3: harv\n\
    \t\tOwner: 0\n\
    \t\tLocation: 8,1\n\
    \t\tFacing: 512\n\
    \ta4: fact\n\
    \t\tOwner: 1\n\
    \t\tLocation: 1,5\n\
    \t\tFacing: 640\n\
    \ta5: fact\n\
    \t\tOwner: 1\n\
    \t\tLocation: 3,0\n\
    ",
    script: "\
    script 1 1\n\
    0 attack 9 14 ; move+ 4 6 9\n\
    0\n\
    0\n\
    0 move 16 9 6\n\
    0 move 9 3 8\n\
    ",
    bots: 1,
    frames: 5,
    hash: 0xb56b_aae3_1aa6_e462,
    actors: 14,
    cash: &[2000, 2000],
};
