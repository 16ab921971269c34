ghost use Rattle.std.specs.Prelude.{◌≡◌, ◌≤◌, length, Some};
ghost use Rattle.std.specs.Option.{ok_or};
ghost use Rattle.flow.specs.Streams.{pair_of};
ghost use Rattle.plan.specs.Listed.{shares_of};
ghost use Rattle.plan.specs.declared.listed.Plan.{Plan as Held};
ghost use Rattle.mesh.specs.declared.fault.Missing.TheVariants as missing;
ghost use Rattle.sheet.specs.Routes.{AllRuled};
ghost use Rattle.sheet.specs.Plans.{Fits};
ghost use Rattle.sheet.specs.Readings.{Answers, Totalled, Carries, Contains, Routed, Stays};
ghost use Rattle.sheet.specs.Readings.Request.{Total, Share, Member, Route};
ghost use Rattle.sheet.specs.Sheets.{shown};

use crate::answers::{Shares, Side, Totals};
use crate::carriage::Carriage;
use crate::sheet::Sheet;
use flow::sides;
use flow::stream::Stream;
use mesh::fault::{Fault, Missing};
use mesh::link::make::LAST_CABINET;
use mesh::row::Row;
use plan::listed::Plan;

// The fewest places of a list that a route is written to: a path without a repeated cabinet has fewer links.
const ROUTE_PLACES: usize = 64;

impl<'a> Sheet<'a> {
    // A sheet of these links and this plan.
    pub fn new(links: &'a [Row], plan: Option<Plan<'a>>) -> Sheet<'a>
        requires few { length links.now ≤ 512 }
        requires ruled { AllRuled links.now }
        requires fits { (p : Held) → plan ≡ Some p → Fits links.now p }
        ensures links { result.links.now ≡ links.now }
        ensures plan { result.plan ≡ plan.entry }
    {
        Sheet { links, plan }
    }

    // The held plan.
    fn plan(&self) -> Result<Plan<'a>, Missing>
        ensures { result ≡ ok_or self.now.plan missing.Plan }
    {
        self.plan.ok_or(Missing::Plan)
    }

    // What a stream of the held plan carries.
    fn carriage(&self, plan: Plan<'a>, stream: Stream) -> Carriage<'a>
        requires { self.now.plan ≡ Some plan }
        ensures links { result.links.now ≡ self.now.links.now }
        ensures shares { result.shares.now ≡ shares_of stream plan.entry.one.now plan.entry.two.now }
        ensures ends { result.ends ≡ pair_of plan.entry.pairs stream }
    {
        Carriage {
            links: self.links,
            shares: plan.shares(stream),
            ends: plan.pairs.of(stream),
        }
    }

    // The totals of the plan.
    pub fn totals(&self) -> Result<Totals, Fault>
        ensures { Answers (shown self.now) Total Totalled result }
    {
        let plan = self.plan()?;
        let one = self.carriage(plan, Stream::One).total();
        let two = self.carriage(plan, Stream::Two).total();
        Ok(Totals {
            sum: one + two,
            one,
            two,
        })
    }

    // What a link carries of each stream.
    pub fn shares(&self, link: u16) -> Result<Shares, Fault>
        ensures { Answers (shown self.now) (Share link) (Carries link) result }
    {
        let plan = self.plan()?;
        let at = link as usize;
        if at >= self.links.len() {
            return Err(Missing::Link.into());
        }
        Ok(Shares {
            one: plan.one[at],
            two: plan.two[at],
        })
    }

    // Whether a cabinet is in one of the two sides.
    pub fn holds(&self, side: Side, cabinet: u8) -> Result<bool, Fault>
        ensures { Answers (shown self.now) (Member side cabinet) (Contains side cabinet) result }
    {
        let plan = self.plan()?;
        if cabinet > LAST_CABINET {
            return Err(Missing::Cabinet.into());
        }
        match side {
            Side::Cut => Ok(sides::holds(plan.cut, cabinet)),
            Side::First => Ok(sides::holds(plan.first, cabinet)),
        }
    }

    // A route of stream 1 or 2 from its source to its goal, along the shares that the stream carries. It answers how
    // many links the route has, and writes them to the front of `path`; or none, where the shares hold no path.
    pub fn route(&self, stream: u8, path: &mut [u16]) -> Result<Option<usize>, Fault>
        ensures route { Answers (shown self.now) (Route stream (length path.old)) (Routed stream path.old path.new) result }
        ensures stays { Stays result path.old path.new }
    {
        let plan = self.plan()?;
        let stream = Stream::try_from(stream)?;
        if path.len() < ROUTE_PLACES {
            return Err(Missing::Room.into());
        }
        Ok(self.carriage(plan, stream).route(path))
    }
}
