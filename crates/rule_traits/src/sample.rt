/// The sample rules as text: a jeep, a harvester, a factory that builds both, and a refinery. Once
/// resolved, these are the kinds 0 to 3.
pub const SAMPLE_RULES: &str = "\
    ^Base:\n\
    \tHealth:\n\
    \t\tHP: 100\n\
    ^Vehicle:\n\
    \tInherits: ^Base\n\
    \tMobile:\n\
    \t\tSpeed: 128\n\
    \t\tTurnSpeed: 64\n\
    \tBuildable:\n\
    \t\tQueue: Vehicle\n\
    \t\tBuildDuration: 20\n\
    jeep:\n\
    \tInherits: ^Vehicle\n\
    \tValued:\n\
    \t\tCost: 300\n\
    \tArmament:\n\
    \t\tRange: 4c0\n\
    \t\tDamage: 10\n\
    \t\tSpread: 4\n\
    \t\tReload: 10\n\
    harv:\n\
    \tInherits: ^Vehicle\n\
    \tValued:\n\
    \t\tCost: 800\n\
    \tHarvester:\n\
    \t\tCapacity: 10\n\
    fact:\n\
    \tInherits: ^Base\n\
    \tBuilding:\n\
    \tProduction:\n\
    \t\tProduces: Vehicle\n\
    proc:\n\
    \tInherits: ^Base\n\
    \tBuilding:\n\
    \tRefinery:\n\
    ";
