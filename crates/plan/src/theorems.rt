// The theorems, for links of every type. Each is the contract of a function, so that its proof is asked for.
ghost use Rattle.plan.specs.Laws.{DrawnIsHeld, AdmitsExactly};

use flow::edge::Edge;

// A plan drawn over lawful links is held with its two sides.
pub fn drawn_is_held<L: Edge>()
    ensures { DrawnIsHeld L.Edge.low L.Edge.high L.Edge.capacity }
{}

// A proposal has no flaw exactly when its lists fit and it is held with its two sides.
pub fn admits_exactly<L: Edge>()
    ensures { AdmitsExactly L.Edge.low L.Edge.high L.Edge.capacity }
{}
