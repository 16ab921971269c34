ghost use Rattle.std.specs.Prelude.{◌≡◌, ◌≤◌, ◌++◌, length, drop};
ghost use Rattle.book.specs.History.{Step, Stays};
ghost use Rattle.book.specs.History.Call.{Draw, Admit};
ghost use Rattle.book.specs.Ledgers.{seen, Orderly, proposed};

use crate::ledger::Ledger;
use crate::proposal::Proposal;
use engine::engine::Engine;
use mesh::fault::Fault;
use plan::drawing::draw;
use plan::judging::judge;
use plan::listed::Plan;
use plan::sides::Sides;

// The first places of `to` become those of `from`; later places stay.
// Kept: `copy_from_slice` for the front of a longer list, by a name and with what stays.
fn copy_front(to: &mut [i32], from: &[i32])
    requires { length from.now ≤ length to.old }
    ensures { to.new ≡ from.now ++ drop (length from.now) to.old }
{
    to[..from.len()].copy_from_slice(from);
}

// A side list as an array.
fn side_of(list: &[bool]) -> [bool; 64]
    requires { length list.now ≡ 64 }
    ensures { result ≡ list.now }
{
    list.try_into().unwrap()
}

impl Ledger {
    pub(crate) fn draw<E: Engine>(&mut self, engine: &mut E) -> Result<(), Fault>
        requires { Orderly (seen self.old) }
        ensures step { Step (seen self.old) Draw result (seen self.new) }
        ensures stays { Stays result self.old self.new }
    {
        let pairs = self.pairs.ok_or(Fault::Unnamed)?;
        let sides = draw(
            engine,
            self.rows.as_slice(),
            pairs,
            self.one.as_mut_slice(),
            self.two.as_mut_slice(),
        );
        self.held = Some(sides);
        Ok(())
    }

    pub(crate) fn admit(&mut self, proposal: Proposal<'_>) -> Result<(), Fault>
        ensures step { Step (seen self.old) (Admit (proposed proposal.entry)) result (seen self.new) }
        ensures stays { Stays result self.old self.new }
    {
        let pairs = self.pairs.ok_or(Fault::Unnamed)?;
        let Proposal {
            one,
            two,
            cut,
            first,
        } = proposal;
        let plan = Plan {
            pairs,
            one,
            two,
            cut,
            first,
        };
        judge(self.rows.as_slice(), plan)?;
        copy_front(self.one.as_mut_slice(), one);
        copy_front(self.two.as_mut_slice(), two);
        self.held = Some(Sides {
            cut: side_of(cut),
            first: side_of(first),
        });
        Ok(())
    }
}
