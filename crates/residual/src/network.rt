// A job with the net of its links, which is built once and serves every search.
ghost use Rattle.std.specs.Prelude.{◌≡◌, ◌<◌};
ghost use Rattle.search.specs.Graphs.{incident};
ghost use Rattle.search.specs.Nets.{links_in};
ghost use Rattle.engine.specs.Jobs.{links_of};
ghost use Rattle.residual.specs.Meshes.{mesh_of};

use engine::arc::Arc;
use engine::job::Job;
use search::net::Net;

#[derive(Drop)]
pub struct Network<'a> {
    pub job: &'a Job<'a>,
    pub net: Net<'a, Arc>,
    ghost same_links: { links_in net ≡ links_of job.now },
}

impl<'a> Network<'a> {
    pub fn of(job: &'a Job<'a>) -> Network<'a>
        ensures { result.job.now ≡ job.now }
    {
        Network {
            job,
            net: Net::of(job.links()),
        }
    }

    // The links that touch a cabinet, in ascending order.
    pub fn row(&self, cabinet: u8) -> &[u16]
        requires { cabinet < 64 }
        ensures { result.now ≡ incident (mesh_of (links_of self.now.job.now)) cabinet }
    {
        self.net.row(cabinet)
    }
}
