// The jobs of a drawing.
ghost use Rattle.std.specs.Prelude.{◌≡◌, ◌+◌, ◌≤◌, length};
ghost use Rattle.flow.specs.Ranges.{cabinets, most_links, most_fed};
ghost use Rattle.flow.specs.Plans.{Proper};
ghost use Rattle.flow.specs.Drawings.{turned, Answered};
ghost use Rattle.engine.specs.Arcs.{tail_of, head_of, limit_of, AllSound};
ghost use Rattle.plan.specs.Halves.{answer, Bounds, Flows};

use engine::arc::Arc;
use engine::engine::Engine;
use engine::job::Job;
use flow::pairs::Pairs;
use flow::taps::Taps;

// The jobs over the same links for the same two streams. They differ in how much each stream may carry.
#[derive(Drop)]
pub(crate) struct Jobs<'a> {
    pub(crate) arcs: &'a [Arc],
    pub(crate) pairs: Pairs,
    ghost few: { length arcs.now ≤ most_links },
    ghost sound: { AllSound arcs.now },
    ghost proper: { Proper cabinets pairs },
}

// What an engine fed in a job, and the side that allows no more.
#[derive(Clone, Copy)]
pub(crate) struct Bound {
    pub(crate) total: u32,
    pub(crate) side: [bool; 64],
}

impl<'a> Jobs<'a> {
    // The jobs with stream 2 the other way round.
    pub(crate) fn turned(&self) -> Jobs<'a>
        ensures arcs { result.arcs.now ≡ self.now.arcs.now }
        ensures pairs { result.pairs ≡ turned self.now.pairs }
    {
        Jobs {
            arcs: self.arcs,
            pairs: self.pairs.turned(),
        }
    }

    // Has the engine solve the job of stream 1 up to x and stream 2 up to y.
    // Kept: here and below x and y are two numbers with a bound each; a struct of both would be made for each call.
    fn solve<E: Engine>(
        &self,
        engine: &mut E,
        x: u32,
        y: u32,
        flow: &mut [i32; 512],
        side: &mut [bool; 64],
    ) -> Taps<u32>
        requires x { x ≤ most_fed }
        requires y { y ≤ most_fed }
        ensures { Answered tail_of head_of limit_of cabinets self.now.pairs x y self.now.arcs.now (answer flow.new result side.new) }
    {
        let job = Job::of(self.arcs, self.pairs.ends(), Taps::both(x, y));
        engine.solve(&job, flow, side)
    }

    // What the engine feeds of stream 1 up to x beside stream 2 up to y.
    pub(crate) fn bound<E: Engine>(&self, engine: &mut E, x: u32, y: u32) -> Bound
        requires x { x ≤ most_fed }
        requires y { y ≤ most_fed }
        ensures bounds { Bounds self.now.pairs x y self.now.arcs.now result.total result.side }
        ensures within { result.total ≤ x + y }
    {
        let mut flow = [0; 512];
        let mut side = [false; 64];
        let amounts = self.solve(engine, x, y, &mut flow, &mut side);
        Bound {
            total: amounts.feed1 + amounts.feed2,
            side,
        }
    }

    // The engine's flow of stream 1 up to x beside stream 2 up to y.
    pub(crate) fn flow<E: Engine>(&self, engine: &mut E, x: u32, y: u32) -> [i32; 512]
        requires x { x ≤ most_fed }
        requires y { y ≤ most_fed }
        ensures { Flows self.now.pairs x y self.now.arcs.now result }
    {
        let mut flow = [0; 512];
        let mut side = [false; 64];
        self.solve(engine, x, y, &mut flow, &mut side);
        flow
    }
}
