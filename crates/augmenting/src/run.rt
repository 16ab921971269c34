// A run of the engine over a job.
ghost use Rattle.std.specs.Prelude.{◌≡◌, ◌+◌, ◌<◌, ◌≤◌};
ghost use Rattle.flow.specs.Nets.{members};
ghost use Rattle.engine.specs.Totals.{FeasibleFlow};
ghost use Rattle.augmenting.specs.Sides.{Full};

use crate::pairs::{Pair, Which, add_sent, can_give, drain, feed, room_between};
use crate::sending::send;
use crate::sides::joined;
use flow::taps::Taps;
use residual::network::Network;

// The flow that was reached, its amounts, and how many times the flow was raised along a path.
#[derive(Clone, Copy)]
pub struct Run<'a> {
    pub network: &'a Network<'a>,
    pub flow: [i32; 512],
    pub amounts: Taps<u32>,
    pub raises: u32,
    ghost feasible: { FeasibleFlow network.now.job.now flow amounts },
    ghost counted: { raises ≤ amounts.feed1 + amounts.feed2 },
}

impl Run<'_> {
    ghost use Rattle.augmenting.specs.Runs.{Continues, Turned, Ended, BlockedIn};
    // Kept: how far a step may change a run is a promise of each step and no fact about a run.

    // Sends more from a feed to a drain over one path; or answers a side that blocks the pair, where it cannot.
    fn turn(&mut self, pair: Pair) -> Result<(), [bool; 64]>
        ensures continues { Continues self.old self.new }
        ensures turned { Turned self.old self.new pair result }
    {
        let at = self.network.job.at();
        let most = self.network.job.most();
        let room = room_between(most, self.amounts, pair);
        if room == 0 {
            return Err([can_give(most, self.amounts, pair.from); 64]);
        }
        let by = send(
            self.network,
            &mut self.flow,
            feed(at, pair.from),
            drain(at, pair.to),
            room,
        )?;
        self.amounts = add_sent(self.amounts, pair, by);
        self.raises += 1;
        Ok(())
    }

    // Sends more from a feed to a drain until no more can go, and answers a side that blocks the pair.
    fn exhaust(&mut self, from: Which, to: Which) -> [bool; 64]
        ensures continues { Continues self.old self.new }
        ensures blocked { BlockedIn self.new (record { from = from; to = to }) (members result) }
    {
        loop {
            if let Err(side) = self.turn(Pair { from, to }) {
                return side;
            }
        }
    }

    // Sends more from each feed to each drain; or answers the side of the flow, where no more can go.
    pub fn round(&mut self) -> Option<[bool; 64]>
        ensures continues { Continues self.old self.new }
        ensures ended { Ended self.old self.new result }
    {
        let before = self.raises;
        // Kept: the four sides are joined each by its name; a loop would need a place for each and lose which is which.
        let one_one = self.exhaust(Which::First, Which::First);
        let one_two = self.exhaust(Which::First, Which::Second);
        let two_one = self.exhaust(Which::Second, Which::First);
        let two_two = self.exhaust(Which::Second, Which::Second);
        if self.raises > before {
            return None;
        }
        Some(joined(&one_one, &one_two, &two_one, &two_two))
    }
}
