// The worked meshes, each drawn with every engine; the last line has what is shown of the mesh.
use crate::call::{Drawer, book_of, draw, ends};
use crate::telling::{print_answer, print_held, print_told};
use book::book::Book;
use flow::pairs::Pairs;
use mesh::row::Row;
use meshes::results::outcome_of;
use meshes::worked::Worked;
use std::io;

const DRAWERS: [Drawer; 4] = [
    Drawer::Augmenting,
    Drawer::TrimOverAugmenting,
    Drawer::Preflow,
    Drawer::TrimOverPreflow,
];

fn link(low: u8, high: u8, slots: u32) -> Row {
    Row { low, high, slots }
}

// The link of the head-on proposals.
pub(crate) fn one_link() -> [Row; 1] {
    [link(0, 1, 10)]
}

// Cabinets 0 and 2 at one end of a trunk, 1 and 3 at the other; the trunk is link 1.
pub(crate) fn trunk() -> [Row; 5] {
    [
        link(0, 4, 6),
        link(4, 5, 8),
        link(1, 5, 6),
        link(2, 4, 6),
        link(3, 5, 6),
    ]
}

pub(crate) fn ring() -> [Row; 4] {
    [link(0, 1, 2), link(1, 2, 2), link(2, 3, 2), link(0, 3, 2)]
}

// What is shown of the mesh, from the definitions alone.
pub(crate) fn print_outcome(rt: &HostRuntime, mesh: Worked) -> io::Result<()> {
    print!(rt; "  shown: ")?;
    print_told(rt, outcome_of(mesh))
}

// Draws with each engine in turn and prints sum, total one and total two.
fn draw_each(rt: &HostRuntime, book: &mut Book) -> io::Result<()> {
    for drawer in DRAWERS {
        print!(rt; "  {drawer}: ")?;
        match draw(book, drawer) {
            Ok(()) => print_held(rt, book)?,
            refused => print_answer(rt, refused)?,
        }
    }
    Ok(())
}

fn show(rt: &HostRuntime, name: &str, mesh: Worked, links: &[Row], pairs: Pairs) -> io::Result<()> {
    println!(rt; "# {name}")?;
    let mut book = book_of(rt.alloc(), links, pairs)?;
    draw_each(rt, &mut book)?;
    print_outcome(rt, mesh)
}

fn show_resized(rt: &HostRuntime) -> io::Result<()> {
    println!(rt; "# the ring with link 1 resized to no slots")?;
    let mut book = book_of(rt.alloc(), &ring(), ends(0, 2, 1, 3))?;
    print!(rt; "  resize: ")?;
    print_answer(rt, book.resize(1, 0))?;
    draw_each(rt, &mut book)?;
    print_outcome(rt, Worked::RingResized)
}

fn show_small(rt: &HostRuntime) -> io::Result<()> {
    show(
        rt,
        "no links at all",
        Worked::NoLinks,
        &[],
        ends(0, 1, 2, 3),
    )?;
    let single = one_link();
    show(
        rt,
        "one link, both streams the same way",
        Worked::SameWay,
        &single,
        ends(0, 1, 0, 1),
    )?;
    show(
        rt,
        "two streams head-on over one link",
        Worked::HeadOn,
        &single,
        ends(0, 1, 1, 0),
    )?;
    let chain = [link(0, 1, 4), link(1, 2, 6)];
    show(
        rt,
        "head-on over a chain of two links",
        Worked::HeadOnChain,
        &chain,
        ends(0, 2, 2, 0),
    )?;
    let fork = [link(0, 1, 2), link(0, 2, 4)];
    show(
        rt,
        "two streams out of one cabinet",
        Worked::OneSource,
        &fork,
        ends(0, 1, 0, 2),
    )
}

pub(crate) fn run(rt: &HostRuntime) -> io::Result<()> {
    show_small(rt)?;
    let trunk = trunk();
    show(
        rt,
        "a shared trunk",
        Worked::Trunk,
        &trunk,
        ends(0, 1, 2, 3),
    )?;
    show(
        rt,
        "the trunk with stream two turned",
        Worked::TrunkTurned,
        &trunk,
        ends(0, 1, 3, 2),
    )?;
    show(
        rt,
        "a ring of four",
        Worked::Ring,
        &ring(),
        ends(0, 2, 1, 3),
    )?;
    show_resized(rt)
}
