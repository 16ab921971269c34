ghost use Rattle.std.specs.Prelude.{◌≡◌, ◌%◌, ◌<◌, ◌≤◌};

// A link: its lower cabinet first, both below 64, and an even number of slots up to 1,048,576.
#[derive(Clone, Copy, Debug, PartialEq, Eq)]
pub struct Link {
    low: u8,
    high: u8,
    slots: u32,
    ghost order: { low < high },
    ghost inside: { high < 64 },
    ghost even: { slots % 2 ≡ 0 },
    ghost bound: { slots ≤ 1048576 },
}

pub mod make;
