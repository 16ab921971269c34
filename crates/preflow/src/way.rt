// A way out of a cabinet: over a link, into a drain, or back into a feed.
#[derive(Clone, Copy)]
pub enum Way {
    Over(u16),
    Drain1,
    Drain2,
    Feed1,
    Feed2,
}

// A way, the height from which it goes down by one, and how much more can go there.
#[derive(Clone, Copy)]
pub struct Best {
    pub height: u8,
    pub room: u32,
    pub way: Way,
}
