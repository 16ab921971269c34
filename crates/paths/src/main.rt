// Runs the search on worked meshes, and prints the path of each stream, or what its source reaches.
#![tactic(auto)]

use grounds::grounds::Slotted;
use grounds::mesh::is_mesh;
use search::find::find_path;
use search::links::Ends;
use search::net::Net;
use std::{fmt, io};

// A stream from a source to a goal.
// Kept: this program stands on the search alone, which knows no plans and so no pairs.
#[derive(Clone, Copy)]
struct Stream {
    source: u8,
    goal: u8,
}

impl From<(u8, u8)> for Stream {
    fn from(pair: (u8, u8)) -> Stream {
        let (source, goal) = pair;
        Stream { source, goal }
    }
}

impl fmt::Display for Stream {
    fn fmt<W: fmt::Write>(&self, f: &mut fmt::Formatter<W>) -> fmt::Result {
        write!(f, "{} to {}", self.source, self.goal)
    }
}

// The links of a path, in order.
#[derive(Drop)]
struct Path<'a> {
    links: &'a [Ends],
    numbers: &'a [u16],
}

impl fmt::Display for Path<'_> {
    fn fmt<W: fmt::Write>(&self, f: &mut fmt::Formatter<W>) -> fmt::Result {
        for number in self.numbers {
            if let Some(ends) = self.links.get(*number as usize) {
                write!(f, ", link {number} ({}-{})", ends.first, ends.second)?;
            }
        }
        Ok(())
    }
}

// The cabinets that a search reached.
#[derive(Drop)]
struct Side<'a>(&'a [bool]);

impl fmt::Display for Side<'_> {
    fn fmt<W: fmt::Write>(&self, f: &mut fmt::Formatter<W>) -> fmt::Result {
        for (cabinet, inside) in self.0.iter().enumerate() {
            if *inside {
                write!(f, " {cabinet}")?;
            }
        }
        Ok(())
    }
}

fn print_search(rt: &HostRuntime, ground: &Slotted, stream: Stream) -> io::Result<()> {
    if stream.source >= 64 || stream.goal >= 64 {
        return println!(rt; "  no such cabinet");
    }
    let mut path = [0u16; 64];
    let mut side = [false; 64];
    match find_path(ground, stream.source, stream.goal, &mut path, &mut side) {
        Some(count) => {
            let path = Path {
                links: ground.net.links(),
                numbers: &path[..count],
            };
            println!(rt; "  {stream}: path of length {count}{path}")
        }
        None => println!(rt; "  {stream}: no path, reached are{}", Side(&side)),
    }
}

// The path of each stream over the links that have slots.
fn print_mesh(
    rt: &HostRuntime,
    name: &str,
    links: &[Ends],
    slots: &[u32],
    streams: [Stream; 2],
) -> io::Result<()> {
    println!(rt; "{name}")?;
    if !is_mesh(links) {
        return println!(rt; "  is no mesh");
    }
    let net = Net::of(links);
    let ground = Slotted { net: &net, slots };
    for stream in streams {
        print_search(rt, &ground, stream)?;
    }
    Ok(())
}

fn print_lines(rt: &HostRuntime) -> io::Result<()> {
    let apart = [(0, 1), (2, 3)].map(Stream::from);
    let together = [(0, 1), (0, 1)].map(Stream::from);
    let head_on = [(0, 1), (1, 0)].map(Stream::from);
    let there_and_back = [(0, 2), (2, 0)].map(Stream::from);
    let parting = [(0, 1), (0, 2)].map(Stream::from);
    let one = [(0, 1)].map(Ends::from);
    let line = [(0, 1), (1, 2)].map(Ends::from);
    let fork = [(0, 1), (0, 2)].map(Ends::from);
    print_mesh(rt, "no links", &[], &[], apart)?;
    print_mesh(rt, "two streams along one link", &one, &[10], together)?;
    print_mesh(rt, "head-on streams over one link", &one, &[10], head_on)?;
    print_mesh(
        rt,
        "head-on streams along a line",
        &line,
        &[4, 6],
        there_and_back,
    )?;
    print_mesh(
        rt,
        "streams that part at their source",
        &fork,
        &[2, 4],
        parting,
    )
}

fn print_trunks(rt: &HostRuntime) -> io::Result<()> {
    let trunk = [(0, 4), (4, 5), (1, 5), (2, 4), (3, 5)].map(Ends::from);
    let along = [(0, 1), (2, 3)].map(Stream::from);
    let head_on = [(0, 1), (3, 2)].map(Stream::from);
    print_mesh(rt, "a shared trunk", &trunk, &[6, 8, 6, 6, 6], along)?;
    print_mesh(
        rt,
        "a shared trunk, head-on",
        &trunk,
        &[6, 8, 6, 6, 6],
        head_on,
    )?;
    print_mesh(
        rt,
        "the trunk without slots",
        &trunk,
        &[6, 0, 6, 6, 6],
        along,
    )
}

fn print_rings(rt: &HostRuntime) -> io::Result<()> {
    let ring = [(0, 1), (1, 2), (2, 3), (0, 3)].map(Ends::from);
    let crossing = [(0, 2), (1, 3)].map(Stream::from);
    print_mesh(
        rt,
        "crossing streams on a ring",
        &ring,
        &[2, 2, 2, 2],
        crossing,
    )?;
    print_mesh(
        rt,
        "the ring with one link without slots",
        &ring,
        &[2, 0, 2, 2],
        crossing,
    )
}

fn main(rt: HostRuntime) -> io::Result<()> {
    print_lines(&rt)?;
    print_trunks(&rt)?;
    print_rings(&rt)
}
