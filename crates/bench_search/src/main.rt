// Measures one search that walks every row: the goal is a cabinet that no link touches.
// Without an argument it says what the searches answered; with one it repeats them and also says how long each took.
#![tactic(auto)]

use grounds::grounds::Slotted;
use grounds::mesh::is_mesh;
use search::find::find_path;
use search::links::Ends;
use search::net::Net;
use std::time::Instant;
use std::{array, env, io};

// The link with this number, of those that join `cabinets` cabinets evenly.
fn link(number: u16, cabinets: u8) -> Ends {
    let cabinets = cabinets.clamp(2, 63) as u16;
    let first = number % cabinets;
    let second = (first + 1 + number / cabinets % (cabinets - 1)) % cabinets;
    Ends {
        first: first as u8,
        second: second as u8,
    }
}

// How many cabinets the search from 0 to 63 reached, where it found no path.
fn reached(ground: &Slotted) -> Option<u64> {
    let mut path = [0u16; 64];
    let mut side = [false; 64];
    match find_path(ground, 0, 63, &mut path, &mut side) {
        Some(_) => None,
        None => Some(side.iter().filter(|inside| **inside).count() as u64),
    }
}

// The same, added up over `times` searches.
fn reached_in_all(ground: &Slotted, times: u32) -> Option<u64> {
    (0..times).try_fold(0u64, |total, _| Some(total.wrapping_add(reached(ground)?)))
}

fn measure(rt: &HostRuntime, ground: &Slotted, times: u32) -> io::Result<()> {
    let start = Instant::now(rt)?;
    let total = reached_in_all(ground, times);
    let nanos = start.elapsed(rt)?.as_nanos();
    if times > 1 {
        let each = nanos / times as u128;
        println!(rt; "    {each} ns a search")?;
    }
    match total {
        Some(total) => println!(rt; "    reached {}", total / times.max(1) as u64),
        None => println!(rt; "    found a path"),
    }
}

fn run(rt: &HostRuntime, count: u16, cabinets: u8, times: u32) -> io::Result<()> {
    let links: [Ends; 512] = array::from_fn(|number| link(number as u16, cabinets));
    let links = &links[..count.min(512) as usize];
    println!(rt; "{count} links among {cabinets} cabinets")?;
    if !is_mesh(links) {
        return println!(rt; "    is no mesh");
    }
    let net = Net::of(links);
    let ground = Slotted {
        net: &net,
        slots: &[1; 512],
    };
    measure(rt, &ground, times)
}

fn main(rt: HostRuntime) -> io::Result<()> {
    let times = if env::args(&rt)?.count() > 1 {
        20_000
    } else {
        1
    };
    for count in [64u16, 128, 256, 512] {
        run(&rt, count, 63, times)?;
    }
    for cabinets in [8u8, 16, 32] {
        run(&rt, 512, cabinets, times)?;
    }
    Ok(())
}
