// The search spreads from the start, and marks what open steps lead to.
ghost use Rattle.std.specs.Prelude.{◌≡◌, ◌+◌, ◌<◌, ◌≤◌, true, [], ◌∷◌, ◌++◌, length, replicate, slice_set};
ghost use Rattle.search.specs.Graphs.{across, incident};
ghost use Rattle.search.specs.Queues.{items, room};
ghost use Rattle.search.specs.Spreads.{mark, reached, level_of, arrived, come, root, offered, queued, unreached, Spread, Leaving, Resting, Ended};

use crate::ground::Ground;
use crate::marks::{Arrival, Mark};
use crate::queue::Queue;

// What a search has reached, and which of it waits to be left.
#[derive(Drop)]
struct Wave<'a> {
    marks: [Option<Mark>; 64],
    queue: Queue<'a, Arrival>,
    ghost room: { 64 ≤ room queue },
}

impl<'a> Wave<'a> {
    // The start alone is reached, and waits.
    fn new(start: u8, places: &'a mut [Arrival]) -> Wave<'a>
        requires start { start < 64 }
        requires room { 64 ≤ length places.old }
        ensures marks { result.marks ≡ slice_set (replicate 64 None) start (Some (root start)) }
        ensures items { items result.queue ≡ come start 0 ∷ [] }
    {
        let mut marks = [None; 64];
        marks[start as usize] = Some(Mark {
            level: 0,
            from: start,
            over: 0,
        });
        let mut queue = Queue::new(places);
        queue.push(Arrival {
            cabinet: start,
            link: 0,
        });
        Wave { marks, queue }
    }

    // Whether a cabinet was reached.
    fn has(&self, cabinet: u8) -> bool
        requires { cabinet < 64 }
        ensures { result ≡ reached self.now.marks cabinet }
    {
        self.marks[cabinet as usize].is_some()
    }

    // Marks `to` as reached from `at` over `link`, and queues it.
    fn enter(&mut self, at: u8, link: u16, to: u8)
        requires at { at < 64 }
        requires to { to < 64 }
        requires low { level_of (mark self.old.marks at) < 64 }
        requires room { length (items self.old.queue) < room self.old.queue }
        ensures marks { self.new.marks ≡ slice_set self.old.marks to (Some (arrived self.old.marks at link)) }
        ensures items { items self.new.queue ≡ items self.old.queue ++ (come to link ∷ []) }
    {
        let level = self.marks[at as usize].map_or(0, |mark| mark.level) + 1;
        self.marks[to as usize] = Some(Mark {
            level,
            from: at,
            over: link,
        });
        self.queue.push(Arrival { cabinet: to, link });
    }

    // Takes the step from `at` over `link` if it is open and leads to a cabinet that was not reached yet.
    fn offer<G: Ground>(&mut self, ground: &G, start: u8, at: u8, link: u16)
        requires at { at < 64 }
        requires link { link < (G.graph ground.now).mesh.links }
        requires known { reached self.old.marks at ≡ true }
        requires spread { Spread (G.graph ground.now) start self.old.marks (items self.old.queue) }
        ensures marks { self.new.marks ≡ offered (G.graph ground.now) self.old.marks at link }
        ensures items { items self.new.queue ≡ queued (G.graph ground.now) self.old.marks (items self.old.queue) at link }
    {
        let to = far_end(ground, at, link);
        if !self.has(to) && ground.is_open(at, link) {
            self.enter(at, link, to);
        }
    }

    // Takes each open step from `at`.
    fn leave<G: Ground>(&mut self, ground: &G, start: u8, at: u8)
        requires { Leaving (G.graph ground.now) start self.old.marks (items self.old.queue) at [] }
        ensures leaving { Leaving (G.graph ground.now) start self.new.marks (items self.new.queue) at (incident (G.graph ground.now).mesh at) }
        ensures fewer { unreached self.new.marks + length (items self.new.queue) ≡ unreached self.old.marks + length (items self.old.queue) }
    {
        for link in ground.links_at(at) {
            self.offer(ground, start, at, *link);
        }
    }

    // Leaves one cabinet after the other, until the goal is reached or none waits.
    fn flood<G: Ground>(&mut self, ground: &G, start: u8, goal: u8)
        requires goal { goal < 64 }
        requires resting { Resting (G.graph ground.now) start self.old.marks (items self.old.queue) }
        ensures { Ended (G.graph ground.now) start goal self.new.marks }
    {
        while !self.has(goal)
            && let Some(arrival) = self.queue.pop()
        {
            self.leave(ground, start, arrival.cabinet);
        }
    }
}

// Where the step from `at` over `link` leads.
fn far_end<G: Ground>(ground: &G, at: u8, link: u16) -> u8
    requires link { link < (G.graph ground.now).mesh.links }
    ensures value { result ≡ across (G.graph ground.now).mesh at link }
    ensures bound { result < 64 }
{
    ground.ends(link).other(at)
}

// What open steps lead to from `start`, until the goal is among it.
pub fn spread_from<G: Ground>(ground: &G, start: u8, goal: u8) -> [Option<Mark>; 64]
    requires start { start < 64 }
    requires goal { goal < 64 }
    ensures { Ended (G.graph ground.now) start goal result }
{
    let mut places = [Arrival {
        cabinet: 0,
        link: 0,
    }; 64];
    let mut wave = Wave::new(start, &mut places);
    wave.flood(ground, start, goal);
    wave.marks
}
