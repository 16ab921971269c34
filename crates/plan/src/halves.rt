// The links of a drawing's jobs: each has half its slots as the limit.
ghost use Rattle.std.specs.Prelude.{◌≡◌, ◌≤◌, map, length, take};
ghost use Rattle.flow.specs.Ranges.{most_links};
ghost use Rattle.plan.specs.Halves.{half_arc};

use engine::arc::Arc;
use flow::edge::Edge;

fn half<L: Edge>(link: &L) -> Arc
    ensures { result ≡ half_arc L.Edge.low L.Edge.high L.Edge.capacity link.now }
{
    Arc {
        tail: link.low(),
        head: link.high(),
        limit: link.capacity() / 2,
    }
}

// The links in order, from the front of the array.
pub fn halves<L: Edge>(links: &[L]) -> [Arc; 512]
    requires { length links.now ≤ most_links }
    ensures { take (length links.now) result ≡ map (half_arc L.Edge.low L.Edge.high L.Edge.capacity) links.now }
{
    let mut arcs = [Arc::default(); 512];
    // Kept: the links go to the front of an array in fixed memory, and after `iter_mut` under a zip nothing is known of the places written.
    for (i, link) in links.iter().enumerate() {
        arcs[i] = half(link);
    }
    arcs
}
