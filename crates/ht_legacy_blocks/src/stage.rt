//! Where a reader of captures is.

/// Which field comes next.
#[derive(Clone, Copy, Debug)]
pub enum Stage {
    /// What stands in front of the frames.
    Start,
    /// The next symbol of the frame under way, of which this number is left; or else the next frame, of which that
    /// number is left; or else the end.
    Due {
        /// How many frames are left behind the one under way.
        frames: u16,
        /// How many of its symbols are left.
        symbols: u32,
    },
}
