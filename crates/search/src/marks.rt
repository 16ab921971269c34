// A cabinet that was come to, and the link that led there.
#[derive(Clone, Copy)]
pub struct Arrival {
    pub cabinet: u8,
    pub link: u16,
}

// What a search knows of a cabinet that it reached: after how many links, from which cabinet and over which link.
// (The start is reached after no link, from itself.)
#[derive(Clone, Copy)]
pub struct Mark {
    pub level: u8,
    pub from: u8,
    pub over: u16,
}
