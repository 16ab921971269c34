// What a flow leaves free.
ghost use Rattle.std.specs.Prelude.{◌≡◌, ◌<◌, ◌≤◌, length, unsigned_abs};
ghost use Rattle.flow.specs.Ranges.{most_limit};
ghost use Rattle.flow.specs.Answers.{Within};
ghost use Rattle.engine.specs.Arcs.{limit_of};
ghost use Rattle.residual.specs.Meshes.{room_on, free};
ghost use Rattle.residual.specs.Networks.{links_in};

use crate::network::Network;

// The links of a job with a flow within their limits.
#[derive(Clone, Copy)]
pub struct Residual<'a> {
    pub network: &'a Network<'a>,
    pub flow: &'a [i32; 512],
    ghost within: { Within limit_of (links_in network.now) flow.now },
}

// What is left of a limit in the direction of a step, which goes with the link if `ahead`.
fn room(limit: u32, flow: i32, ahead: bool) -> u32
    requires small { limit ≤ most_limit }
    requires within { unsigned_abs flow ≤ limit }
    ensures { result ≡ room_on limit flow ahead }
{
    if ahead {
        (limit as i32 - flow) as u32
    } else {
        (limit as i32 + flow) as u32
    }
}

impl<'a> Residual<'a> {
    // How much more can go from a cabinet over a link.
    pub fn free(&self, cabinet: u8, link: u16) -> u32
        requires { link < length (links_in self.now.network.now) }
        ensures { result ≡ free (links_in self.now.network.now) self.now.flow.now cabinet link }
    {
        let arc = self.network.job.links()[link as usize];
        room(arc.limit, self.flow[link as usize], arc.tail == cabinet)
    }
}
