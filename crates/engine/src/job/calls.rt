// Making a job, which refuses numbers out of range, and reading it.
ghost use Rattle.std.specs.Prelude.{◌≡◌, ◌≤◌, true, length, take, Decides};
ghost use Rattle.flow.specs.Ranges.{cabinets, most_links};
ghost use Rattle.flow.specs.Answers.{Placed};
ghost use Rattle.engine.specs.Arcs.{Sound, AllSound, Limited, Fits};
ghost use Rattle.engine.specs.Jobs.{Made, links_of};

use super::Job;
use super::links::{Links, Own};
use crate::arc::Arc;
use flow::ranges::{CABINETS, MOST_FED, MOST_LIMIT, MOST_LINKS};
use flow::taps::Taps;

// Whether a link joins two different cabinets and its limit is in range.
fn is_sound(arc: Arc) -> bool
    ensures { Decides result (Sound arc) }
{
    arc.tail < CABINETS && arc.head < CABINETS && arc.tail != arc.head && arc.limit <= MOST_LIMIT
}

fn are_sound(links: &[Arc]) -> bool
    ensures { Decides result (AllSound links.now) }
{
    links.iter().all(|arc| is_sound(*arc))
}

// Whether all four are cabinets.
fn are_placed(at: Taps<u8>) -> bool
    ensures { Decides result (Placed cabinets at) }
{
    at.all(|cabinet| cabinet < CABINETS)
}

// Whether all four limits are in range.
fn are_limited(most: Taps<u32>) -> bool
    ensures { Decides result (Limited most) }
{
    most.all(|limit| limit <= MOST_FED)
}

// A copy of a list of links.
fn copied(links: &[Arc]) -> Own
    requires { length links.now ≤ most_links }
    ensures { take result.count result.arcs ≡ links.now }
{
    let mut arcs = [Arc::default(); 512];
    let count = links.len();
    arcs[..count].copy_from_slice(links);
    Own { arcs, count }
}

impl<'a> Job<'a> {
    // The job with a copy of these links, these cabinets and limits, or none where a number is out of range.
    pub fn new(links: &[Arc], at: Taps<u8>, most: Taps<u32>) -> Option<Job<'a>>
        ensures { Made links.now at most result }
    {
        if links.len() > MOST_LINKS || !are_sound(links) || !are_placed(at) || !are_limited(most) {
            return None;
        }
        let links = Links::Own(copied(links));
        Some(Job { links, at, most })
    }

    // The job with these links, which are lent to it, and these cabinets and limits, all of which are in range.
    pub fn of(links: &'a [Arc], at: Taps<u8>, most: Taps<u32>) -> Job<'a>
        requires { Fits links.now at most }
        ensures links { links_of result ≡ links.now }
        ensures at { result.at ≡ at }
        ensures most { result.most ≡ most }
    {
        let links = Links::Lent(links);
        Job { links, at, most }
    }

    // The same job over other links.
    pub(crate) fn with_links<'b>(&self, links: &'b [Arc]) -> Job<'b>
        requires few { length links.now ≤ most_links }
        requires sound { AllSound links.now }
        ensures links { links_of result ≡ links.now }
        ensures at { result.at ≡ self.now.at }
        ensures most { result.most ≡ self.now.most }
    {
        Job {
            links: Links::Lent(links),
            at: self.at,
            most: self.most,
        }
    }

    // The links in order.
    pub fn links(&self) -> &[Arc]
        ensures links { result.now ≡ links_of self.now }
        ensures few { length result.now ≤ most_links }
    {
        match &self.links {
            Links::Lent(links) => links,
            Links::Own(own) => &own.arcs[0..own.count],
        }
    }

    // The cabinets of the feeds and drains.
    pub fn at(&self) -> Taps<u8>
        ensures { result ≡ self.now.at }
    {
        self.at
    }

    // The limits of the feeds and drains.
    pub fn most(&self) -> Taps<u32>
        ensures { result ≡ self.now.most }
    {
        self.most
    }
}
