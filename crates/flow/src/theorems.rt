// The theorems, for links of every type. Each is the contract of a function, so that its proof is asked for.
ghost use Rattle.flow.specs.Laws.{DoubleCounting, WeakDuality, HeldIsBest, HeldByCabinets, Halving, EitherSide, Submodular, Drawing, SlotsChange, SumsNear, TestsDecide, TrimAnswers};

use crate::edge::Edge;

// The nets of a side's cabinets add up to what leaves the side.
pub fn double_counting<E: Edge>()
    ensures { DoubleCounting E.Edge.low E.Edge.high E.Edge.capacity }
{}

// A first side's slots bound total 1, and a sum side's the sum; in fractions q times them.
pub fn weak_duality<E: Edge>()
    ensures { WeakDuality E.Edge.low E.Edge.high E.Edge.capacity }
{}

// A held plan is best.
pub fn held_is_best<E: Edge>()
    ensures { HeldIsBest E.Edge.low E.Edge.high E.Edge.capacity }
{}

// Of a side only its cabinets matter.
pub fn held_by_cabinets<E: Edge>()
    ensures { HeldByCabinets E.Edge.low E.Edge.high E.Edge.capacity }
{}

// The sum and the difference of two flows within half the slots are feasible shares.
pub fn halving<E: Edge>()
    ensures { Halving E.Edge.low E.Edge.high E.Edge.capacity }
{}

// A link that crosses the exclusive-or of two sides crosses one of them.
pub fn either_side<E: Edge>()
    ensures { EitherSide E.Edge.low E.Edge.high E.Edge.capacity }
{}

// Slots of sides are submodular.
pub fn submodular<E: Edge>()
    ensures { Submodular E.Edge.low E.Edge.high E.Edge.capacity }
{}

// A drawn plan is held with its two sides, and its halves are the greatest.
pub fn drawing<E: Edge>()
    ensures { Drawing E.Edge.low E.Edge.high E.Edge.capacity }
{}

// A change of the links moves the slots of every side by at most what it adds and takes.
pub fn slots_change<E: Edge>()
    ensures { SlotsChange E.Edge.low E.Edge.high E.Edge.capacity }
{}

// The sums of plans held for the same pairs move no further than the slots of sides.
pub fn sums_near<E: Edge>()
    ensures { SumsNear E.Edge.low E.Edge.high E.Edge.capacity }
{}

// The computed tests decide what they test.
pub fn tests_decide<E: Edge>()
    ensures { TestsDecide E.Edge.low E.Edge.high E.Edge.capacity }
{}

// An answer for the links with a limit above 0 serves all links.
pub fn trim_answers<E: Edge>()
    ensures { TrimAnswers E.Edge.low E.Edge.high E.Edge.capacity }
{}
