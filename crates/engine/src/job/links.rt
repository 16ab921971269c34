// The links that a job keeps.
ghost use Rattle.std.specs.Prelude.{◌≤◌};
ghost use Rattle.flow.specs.Ranges.{most_links};

use crate::arc::Arc;

// A list of its own: the first `count` of `arcs`.
// Kept: an array with a count, so that a job may own its links without the heap.
#[derive(Clone, Copy)]
pub(super) struct Own {
    pub(super) arcs: [Arc; 512],
    pub(super) count: usize,
    ghost few: { count ≤ most_links },
}

// Links that are lent to a job, or its own.
#[derive(Clone, Copy)]
pub(super) enum Links<'a> {
    Lent(&'a [Arc]),
    Own(Own),
}
