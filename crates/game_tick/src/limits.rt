/// The next id from which on nothing is built any more: every id is below it.
pub const LAST_ID: u32 = 4_294_967_295;
