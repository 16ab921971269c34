// The worked meshes, each named by what it shows.
#[derive(Clone, Copy, Debug, PartialEq, Eq)]
pub enum Worked {
    // no links at all, and two pairs apart
    NoLinks,
    // one link, both streams the same way
    SameWay,
    // two streams head-on over one link
    HeadOn,
    // two streams head-on over a chain of two links
    HeadOnChain,
    // two streams out of one cabinet
    OneSource,
    // two streams over a shared trunk
    Trunk,
    // the shared trunk with stream two turned
    TrunkTurned,
    // a ring of four, its pairs across
    Ring,
    // the ring with one link resized to no slots
    RingResized,
    // the shared trunk while its trunk link is in an outage trial
    TrunkInTrial,
    // the head-on link, shared evenly by a proposal
    HeadOnEven,
    // the head-on link, given more than its slots by a proposal
    HeadOnOver,
}
