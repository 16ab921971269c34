ghost use Rattle.std.specs.Prelude.{◌≡◌, ◌≤◌, length, Some};
ghost use Rattle.plan.specs.declared.listed.Plan.{Plan as Held};
ghost use Rattle.sheet.specs.Routes.{AllRuled};
ghost use Rattle.sheet.specs.Plans.{Fits};

use mesh::row::Row;
use plan::listed::Plan;

// A sheet: the links of a book and its held plan, if there is one. While it is read, the book cannot change.
#[derive(Clone, Copy)]
pub struct Sheet<'a> {
    links: &'a [Row],
    plan: Option<Plan<'a>>,
    ghost few: { length links.now ≤ 512 },
    ghost ruled: { AllRuled links.now },
    ghost fits: { (p : Held) → plan ≡ Some p → Fits links.now p },
}

pub mod reads;
