// What a benchmark prints.
ghost use Rattle.samples.specs.Modes.{Named};

#[derive(Clone, Copy, Debug, PartialEq, Eq)]
pub enum Mode {
    // what the jobs come to
    Totals,
    // also how long they take
    Times,
    // the jobs themselves, for another solver
    Jobs,
}

// A word that names no mode.
#[derive(Clone, Copy, Debug, PartialEq, Eq)]
pub struct NoMode;

impl TryFrom<&str> for Mode {
    type Error = NoMode;

    ghost try_from_gives = { λ word. Named word.now };

    fn try_from(word: &str) -> Result<Mode, NoMode> {
        match word {
            "times" => Ok(Mode::Times),
            "jobs" => Ok(Mode::Jobs),
            _ => Err(NoMode),
        }
    }
}
