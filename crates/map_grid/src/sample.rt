/// The sample map as text: 16 columns and rows, and four actors of each of four clients. Its kinds
/// are those of the sample rules.
pub const SAMPLE_MAP: &str = "\
    Size: 16,16\n\
    Cash: 2000\n\
    Tiles:\n\
    \t7: ...XX......XX...\n\
    \t8: ...XX......XX...\n\
    Ore:\n\
    \t3: ......9999......\n\
    \t12: ......9999......\n\
    Actors:\n\
    \ta1: fact\n\
    \t\tOwner: 0\n\
    \t\tLocation: 1,1\n\
    \ta2: proc\n\
    \t\tOwner: 0\n\
    \t\tLocation: 3,1\n\
    \ta3: harv\n\
    \t\tOwner: 0\n\
    \t\tLocation: 5,1\n\
    \ta4: jeep\n\
    \t\tOwner: 0\n\
    \t\tLocation: 1,3\n\
    \ta5: fact\n\
    \t\tOwner: 1\n\
    \t\tLocation: 14,1\n\
    \ta6: proc\n\
    \t\tOwner: 1\n\
    \t\tLocation: 12,1\n\
    \ta7: harv\n\
    \t\tOwner: 1\n\
    \t\tLocation: 10,1\n\
    \ta8: jeep\n\
    \t\tOwner: 1\n\
    \t\tLocation: 14,3\n\
    \ta9: fact\n\
    \t\tOwner: 2\n\
    \t\tLocation: 1,14\n\
    \ta10: proc\n\
    \t\tOwner: 2\n\
    \t\tLocation: 3,14\n\
    \ta11: harv\n\
    \t\tOwner: 2\n\
    \t\tLocation: 5,14\n\
    \ta12: jeep\n\
    \t\tOwner: 2\n\
    \t\tLocation: 1,12\n\
    \ta13: fact\n\
    \t\tOwner: 3\n\
    \t\tLocation: 14,14\n\
    \ta14: proc\n\
    \t\tOwner: 3\n\
    \t\tLocation: 12,14\n\
    \ta15: harv\n\
    \t\tOwner: 3\n\
    \t\tLocation: 10,14\n\
    \ta16: jeep\n\
    \t\tOwner: 3\n\
    \t\tLocation: 14,12\n\
    ";
