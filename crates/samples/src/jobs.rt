// Jobs of a shape, one after the other.
ghost use Rattle.std.specs.Prelude.{◌≡◌, ◌≤◌, IsSome, IfSome};
ghost use Rattle.flow.specs.Ranges.{cabinets};
ghost use Rattle.flow.specs.Answers.{Each, Placed};
ghost use Rattle.engine.specs.Arcs.{Sound, AllSound, Limited};
ghost use Rattle.samples.specs.Shapes.{IsUsable, Shaped};

use crate::random::Random;
use engine::arc::Arc;
use engine::job::Job;
use flow::ranges::{CABINETS, MOST_FED, MOST_LIMIT, MOST_LINKS};
use flow::taps::Taps;

// How many links a job has and how many cabinets they join, and the greatest limits of its links, and of its feeds and drains.
#[derive(Clone, Copy)]
pub struct Shape {
    pub links: usize,
    pub cabinets: u8,
    pub limits: u32,
    pub fed: u32,
}

// A shape that there are jobs of.
#[derive(Clone, Copy)]
struct Usable {
    shape: Shape,
    ghost usable: { IsUsable shape },
}

// Four numbers, each at most `most`.
fn next_four(random: &mut Random, most: u32) -> Taps<u32>
    ensures { Each ◌≤◌ result (record { feed1 = most; feed2 = most; drain1 = most; drain2 = most }) }
{
    let feed1 = random.up_to(most);
    let feed2 = random.up_to(most);
    let drain1 = random.up_to(most);
    let drain2 = random.up_to(most);
    Taps {
        feed1,
        feed2,
        drain1,
        drain2,
    }
}

impl Usable {
    // The shape, or none where it is out of range.
    fn of(shape: Shape) -> Option<Usable>
        ensures usable { IsUsable shape → IsSome result }
        ensures same { IfSome result (λ u. u.shape ≡ shape) }
    {
        if shape.links <= MOST_LINKS
            && shape.cabinets >= 2
            && shape.cabinets <= CABINETS
            && shape.limits <= MOST_LIMIT
            && shape.fed <= MOST_FED
        {
            Some(Usable { shape })
        } else {
            None
        }
    }

    // A link between two different cabinets.
    fn next_arc(self, random: &mut Random) -> Arc
        ensures { Sound result }
    {
        let tail = random.up_to(self.shape.cabinets as u32 - 1);
        let other = random.up_to(self.shape.cabinets as u32 - 2);
        let limit = random.up_to(self.shape.limits);
        let head = if other >= tail { other + 1 } else { other };
        Arc {
            tail: tail as u8,
            head: head as u8,
            limit,
        }
    }

    // Writes a job's links over what `links` holds.
    fn write_arcs(self, random: &mut Random, links: &mut [Arc])
        ensures { AllSound links.new }
    {
        for link in links.iter_mut() {
            *link = self.next_arc(random);
        }
    }

    // The cabinets of the feeds and drains.
    fn next_places(self, random: &mut Random) -> Taps<u8>
        ensures { Placed cabinets result }
    {
        let numbers = next_four(random, self.shape.cabinets as u32 - 1);
        Taps {
            feed1: numbers.feed1 as u8,
            feed2: numbers.feed2 as u8,
            drain1: numbers.drain1 as u8,
            drain2: numbers.drain2 as u8,
        }
    }

    // Their limits.
    fn next_limits(self, random: &mut Random) -> Taps<u32>
        ensures { Limited result }
    {
        next_four(random, self.shape.fed)
    }
}

// The next job of a shape, or none where the shape is out of range.
pub fn next_job<'a>(random: &mut Random, shape: Shape) -> Option<Job<'a>>
    ensures { Shaped shape result }
{
    let usable = Usable::of(shape)?;
    let mut room = [Arc::default(); 512];
    let links = &mut room[0..shape.links];
    usable.write_arcs(random, links);
    let at = usable.next_places(random);
    let most = usable.next_limits(random);
    Job::new(links, at, most)
}
