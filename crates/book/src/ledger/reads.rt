ghost use Rattle.std.specs.Prelude.{◌≡◌};
ghost use Rattle.sheet.specs.Sheets.{plan_shown};
ghost use Rattle.book.specs.Ledgers.{seen};
ghost use Rattle.book.specs.Sheets.{reading};

use crate::ledger::Ledger;
use flow::pairs::Pairs;
use mesh::row::Row;
use plan::listed::Plan;

impl Ledger {
    pub(crate) fn links(&self) -> &[Row]
        ensures { result.now ≡ (seen self.now).rows }
    {
        self.rows.as_slice()
    }

    pub(crate) fn pairs(&self) -> Option<Pairs>
        ensures { result ≡ (seen self.now).pairs }
    {
        self.pairs
    }

    // The held plan, with the pairs that it belongs to.
    pub(crate) fn plan(&self) -> Option<Plan<'_>>
        ensures { plan_shown result ≡ (reading (seen self.now)).plan }
    {
        let pairs = self.pairs?;
        let sides = self.held.as_ref()?;
        let n = self.rows.len();
        Some(Plan {
            pairs,
            one: &self.one.as_slice()[..n],
            two: &self.two.as_slice()[..n],
            cut: &sides.cut,
            first: &sides.first,
        })
    }
}
