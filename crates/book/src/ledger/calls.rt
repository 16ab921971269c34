ghost use Rattle.std.specs.Prelude.{◌≡◌, length, is_some, if◌then◌else◌, nat_le, IfOk, vec_len};
ghost use Rattle.mesh.specs.declared.fault.Fault.TheVariants.{TrialStands, NoLink};
ghost use Rattle.book.specs.History.{Step, Stays, opened, linked};
ghost use Rattle.book.specs.History.Call.{Add, Resize, Drop, Name};
ghost use Rattle.book.specs.Ledgers.{seen};

use crate::ledger::Ledger;
use flow::pairs::Pairs;
use flow::ranges::MOST_LINKS;
use mesh::fault::Fault;
use mesh::link::Link;
use mesh::link::make::{LAST_CABINET, bad_slots};
use mesh::row::Row;
use std::alloc::{AllocError, Global};

// A list of shares, one for each link that a book may hold.
fn no_shares(heap: Global) -> Result<Vec<i32>, AllocError>
    ensures { IfOk result (λ v. vec_len v ≡ 512) }
{
    vec![in heap; 0i32; MOST_LINKS]
}

impl Ledger {
    pub(crate) fn open(heap: Global) -> Result<Ledger, AllocError>
        ensures { IfOk result (λ b. seen b ≡ opened) }
    {
        let rows = Vec::with_capacity(heap, MOST_LINKS)?;
        let one = no_shares(heap)?;
        let two = no_shares(heap)?;
        Ok(Ledger {
            rows,
            one,
            two,
            pairs: None,
            trial: None,
            held: None,
        })
    }

    // Whether a link joins these two cabinets already.
    fn linked(&self, low: u8, high: u8) -> bool
        ensures { result ≡ linked self.now.rows.items low high }
    {
        self.rows
            .iter()
            .any(|row| row.low == low && row.high == high)
    }

    // Refuses what a trial that stands forbids.
    pub(super) fn refuse_in_trial(&self) -> Result<(), Fault>
        ensures { result ≡ (if is_some self.now.trial then Err TrialStands else Ok tt) }
    {
        if self.trial.is_some() {
            return Err(Fault::TrialStands);
        }
        Ok(())
    }

    // The place of a link, which is its number.
    pub(super) fn place_of(&self, link: u16) -> Result<usize, Fault>
        ensures { result ≡ (if nat_le (length self.now.rows.items) link then Err NoLink else Ok link) }
    {
        let at = usize::from(link);
        if at >= self.rows.len() {
            return Err(Fault::NoLink);
        }
        Ok(at)
    }

    pub(crate) fn add(&mut self, one: u8, other: u8, slots: u32) -> Result<(), Fault>
        ensures step { Step (seen self.old) (Add one other slots) result (seen self.new) }
        ensures stays { Stays result self.old self.new }
    {
        let link = Link::try_from(Row::between(one, other, slots))?;
        self.refuse_in_trial()?;
        let row = Row::from(link);
        if self.linked(row.low, row.high) {
            return Err(Fault::Linked);
        }
        if self.rows.len() >= MOST_LINKS {
            return Err(Fault::Full);
        }
        self.held = None;
        self.rows.push_reserved(row);
        Ok(())
    }

    pub(crate) fn resize(&mut self, link: u16, slots: u32) -> Result<(), Fault>
        ensures step { Step (seen self.old) (Resize link slots) result (seen self.new) }
        ensures stays { Stays result self.old self.new }
    {
        if bad_slots(slots) {
            return Err(Fault::Slots);
        }
        self.refuse_in_trial()?;
        let at = self.place_of(link)?;
        self.held = None; // also where the number stays the same
        self.rows[at].slots = slots;
        Ok(())
    }

    pub(crate) fn drop_link(&mut self, link: u16) -> Result<(), Fault>
        ensures step { Step (seen self.old) (Drop link) result (seen self.new) }
        ensures stays { Stays result self.old self.new }
    {
        self.refuse_in_trial()?;
        let at = self.place_of(link)?;
        self.held = None;
        let _ = self.rows.remove(at);
        Ok(())
    }

    pub(crate) fn name(&mut self, pairs: Pairs) -> Result<(), Fault>
        ensures step { Step (seen self.old) (Name pairs) result (seen self.new) }
        ensures stays { Stays result self.old self.new }
    {
        let Pairs {
            source1,
            goal1,
            source2,
            goal2,
        } = pairs;
        if source1.max(goal1).max(source2).max(goal2) > LAST_CABINET {
            return Err(Fault::Cabinet);
        }
        if source1 == goal1 || source2 == goal2 {
            return Err(Fault::Ends);
        }
        self.held = None;
        self.pairs = Some(pairs);
        Ok(())
    }
}
