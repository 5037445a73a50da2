/// A play as a [`crate::PlayList`] stores it: `count` orders, which stand in the list's pool from
/// `first` on.
#[derive(Clone, Copy, Debug)]
pub(crate) struct PlayPart {
    pub first: u32,
    pub count: u8,
}

// A match has up to 262,144 plays of each client.
const _: () = prove!(size_of::<PlayPart>() == 8);
