ghost use Rattle.std.specs.Prelude.{◌≡◌};

use crate::trial::Receipt;

impl Receipt {
    // The link that is out.
    pub fn link(&self) -> u16
        ensures { result ≡ self.now.trial.link }
    {
        self.trial.link
    }

    // The slots that it had before.
    pub fn slots(&self) -> u32
        ensures { result ≡ self.now.trial.slots }
    {
        self.trial.slots
    }
}
