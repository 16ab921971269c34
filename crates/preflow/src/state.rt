use flow::taps::Taps;

// What preflow pushing keeps besides the flow: what is fed and drained, and each cabinet's excess and height.
// Kept: two arrays in fixed memory; the heights are searched alone, and the definitions speak of excess and of heights as lists.
#[derive(Clone, Copy)]
pub struct State {
    pub amounts: Taps<u32>,
    pub excess: [u32; 64],
    pub heights: [u8; 64],
}
