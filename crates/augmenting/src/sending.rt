// Sending more from a cabinet to another over one path.
ghost use Rattle.std.specs.Prelude.{◌<◌};
ghost use Rattle.flow.specs.Answers.{Within};
ghost use Rattle.engine.specs.Arcs.{limit_of};
ghost use Rattle.residual.specs.Networks.{links_in};
ghost use Rattle.augmenting.specs.Sending.{Sought, Sent};

use residual::network::Network;
use residual::raise::{least_free, raise};
use residual::residual::Residual;
use search::find::find_path;

// A path with something free on each link, and how much more can go over it.
#[derive(Clone, Copy)]
pub struct Augmentation<'p> {
    pub path: &'p [u16],
    pub by: u32,
}

// A path with something free on each link, written to the front of `links`, and how much of `most` can go over it;
// or a side that no open step leaves, where there is no path.
fn seek<'p>(
    network: &Network<'_>,
    flow: &[i32; 512],
    from: u8,
    to: u8,
    most: u32,
    links: &'p mut [u16; 64],
) -> Result<Augmentation<'p>, [bool; 64]>
    requires within { Within limit_of (links_in network.now) flow.now }
    requires from { from < 64 }
    requires to { to < 64 }
    requires some { 0 < most }
    ensures { Sought (links_in network.now) flow.now from to most result }
{
    let ground = Residual { network, flow };
    let mut side = [false; 64];
    let Some(count) = find_path(&ground, from, to, links, &mut side) else {
        return Err(side);
    };
    let path = &links[..count];
    let by = least_free(&ground, from, path, most);
    Ok(Augmentation { path, by })
}

// Sends up to `most` more from one cabinet to another over one path, and says how much;
// or answers a side that no open step leaves, where there is no path.
pub fn send(
    network: &Network<'_>,
    flow: &mut [i32; 512],
    from: u8,
    to: u8,
    most: u32,
) -> Result<u32, [bool; 64]>
    requires within { Within limit_of (links_in network.now) flow.old }
    requires from { from < 64 }
    requires to { to < 64 }
    requires some { 0 < most }
    ensures { Sent (links_in network.now) flow.old flow.new most from to result }
{
    let mut links = [0; 64];
    let Augmentation { path, by } = seek(network, flow, from, to, most, &mut links)?;
    raise(network.job, flow, from, path, by);
    Ok(by)
}
