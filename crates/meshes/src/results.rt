// What each worked mesh comes to.
ghost use Rattle.std.specs.Prelude.{◌≡◌, Ok, Err};
ghost use Rattle.meshes.specs.Table.{example, WholeTable};

use crate::refusal::Refusal;
use crate::worked::Worked;
use sheet::answers::Totals;

// The totals of a best plan.
fn best(sum: i64, one: i64, two: i64) -> Result<Totals, Refusal>
    ensures { result ≡ Ok (record { sum = sum; one = one; two = two }) }
{
    Ok(Totals { sum, one, two })
}

// A proposal that is refused with this number and place.
fn refused(number: u8, place: u32) -> Result<Totals, Refusal>
    ensures { result ≡ Err (record { number = number; place = place }) }
{
    Err(Refusal { number, place })
}

// What the table says of a worked mesh.
fn listed(mesh: Worked) -> Result<Totals, Refusal>
    ensures { result ≡ (example mesh).outcome }
{
    match mesh {
        Worked::NoLinks => best(0, 0, 0),
        Worked::SameWay => best(10, 10, 0),
        Worked::HeadOn => best(10, 10, 0),
        Worked::HeadOnChain => best(4, 4, 0),
        Worked::OneSource => best(6, 2, 4),
        Worked::Trunk => best(8, 6, 2),
        Worked::TrunkTurned => best(8, 6, 2),
        Worked::Ring => best(4, 4, 0),
        Worked::RingResized => best(2, 2, 0),
        Worked::TrunkInTrial => best(0, 0, 0),
        Worked::HeadOnEven => refused(46, 0),
        Worked::HeadOnOver => refused(42, 0),
    }
}

// What a worked mesh comes to. The whole table is shown: each mesh's calls are accepted, and in the state that they
// lead to its plan is held and best with just these totals, or its proposal is refused with just this number and place.
pub fn outcome_of(mesh: Worked) -> Result<Totals, Refusal>
    ensures value { result ≡ (example mesh).outcome }
    ensures shown { WholeTable }
{
    listed(mesh)
}
