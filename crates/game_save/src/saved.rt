use game_model::World;

/// The world of a game, and after how many frames it is.
pub struct Saved {
    /// The frames that led to the world, at most [`game_orders::MAX_FRAMES`].
    pub frames: u32,
    /// The world.
    pub world: World,
}

// By hand, so that what drops one needs no proof of how its parts are dropped.
impl Drop for Saved {
    fn drop(self) {
        let Self {
            frames: _,
            world: _,
        } = self;
    }
}
