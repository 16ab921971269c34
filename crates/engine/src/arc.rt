// A link of a job: it carries flow both ways up to its limit, counted positive from tail to head.
#[derive(Clone, Copy, Default)]
pub struct Arc {
    pub tail: u8,
    pub head: u8,
    pub limit: u32,
}
