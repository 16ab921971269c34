// A plan proposed from elsewhere: for each link its share of stream one and of stream two,
// and two side lists, the cut and the first side, that are to show it best.
// Kept: a proposal has no pairs, which are the book's; with them it is a `Plan`.
#[derive(Clone, Copy)]
pub struct Proposal<'a> {
    pub one: &'a [i32],
    pub two: &'a [i32],
    pub cut: &'a [bool],
    pub first: &'a [bool],
}
