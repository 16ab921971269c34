// The ranges of meshes and jobs.

// Cabinets are numbered from 0 and stay below this. (A cabinet is a node of the mesh.)
pub const CABINETS: u8 = 64;

// A mesh has at most so many links.
pub const MOST_LINKS: usize = 512;

// A link has at most so many slots.
pub const MOST_SLOTS: u32 = 1_048_576;

// A link of a job has at most this limit.
pub const MOST_LIMIT: u32 = 524_288;

// A feed or a drain has at most this limit, which is more than all links of a job can carry.
pub const MOST_FED: u32 = 536_870_912;
