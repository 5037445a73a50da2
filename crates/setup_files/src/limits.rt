/// The most rule files of one setup.
pub const MAX_RULE_FILES: usize = 64;
