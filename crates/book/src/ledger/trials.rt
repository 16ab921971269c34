ghost use Rattle.book.specs.History.{Step, Stays, TrialThere};
ghost use Rattle.book.specs.History.Call.{Begin, Close};
ghost use Rattle.book.specs.Ledgers.{seen};
ghost use Rattle.book.specs.Receipts.{begun, closed, trial_of, Received, HandedBack};

use crate::ledger::Ledger;
use crate::trial::{Receipt, Refused, Trial};
use mesh::fault::Fault;

impl Ledger {
    pub(crate) fn begin(&mut self, link: u16) -> Result<Receipt, Fault>
        ensures step { Step (seen self.old) (Begin link) (begun result) (seen self.new) }
        ensures receipt { Received link (seen self.old) result }
        ensures stays { Stays (begun result) self.old self.new }
    {
        self.refuse_in_trial()?;
        let at = self.place_of(link)?;
        self.held = None;
        let trial = Trial {
            link,
            slots: self.rows[at].slots,
        };
        self.rows[at].slots = 0;
        self.trial = Some(trial);
        Ok(Receipt { trial })
    }

    pub(crate) fn close(&mut self, receipt: Receipt) -> Result<(), Refused>
        requires { TrialThere (seen self.old) }
        ensures step { Step (seen self.old) (Close (trial_of receipt)) (closed result) (seen self.new) }
        ensures receipt { HandedBack receipt result }
        ensures stays { Stays (closed result) self.old self.new }
    {
        if self.trial != Some(receipt.trial) {
            return Err(Refused {
                receipt,
                fault: Fault::NoTrial,
            });
        }
        let Receipt { trial } = receipt;
        self.held = None;
        self.rows[usize::from(trial.link)].slots = trial.slots;
        self.trial = None;
        Ok(())
    }
}
