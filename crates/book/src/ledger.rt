ghost use Rattle.std.specs.Prelude.{◌≡◌, ◌≤◌, vec_len, vec_capacity};

use crate::trial::Trial;
use flow::pairs::Pairs;
use mesh::row::Row;
use plan::sides::Sides;

// What a book holds. A held plan has its shares at the front of `one` and `two`,
// which are as long as a book may have links. All memory is taken when it is opened.
// Kept: the shares are two lists beside the links, in the memory that opening takes; engines and proposals give each stream's shares as a list.
#[derive(Drop)]
pub(crate) struct Ledger {
    rows: Vec<Row>,
    one: Vec<i32>,
    two: Vec<i32>,
    pairs: Option<Pairs>,
    trial: Option<Trial>,
    held: Option<Sides>,
    ghost few: { vec_len rows ≤ 512 },
    ghost room: { 512 ≤ vec_capacity rows },
    ghost ones: { vec_len one ≡ 512 },
    ghost twos: { vec_len two ≡ 512 },
}

pub(crate) mod calls;
pub(crate) mod plans;
pub(crate) mod reads;
pub(crate) mod trials;
