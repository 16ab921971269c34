// The two sides that a plan is held with: its cut, which is a sum side, and its first side.
// A side is a set of cabinets, a yes or no for each of the 64.
#[derive(Clone, Copy)]
pub struct Sides {
    pub cut: [bool; 64],
    pub first: [bool; 64],
}
