// A link and a job as text, for another solver.
ghost use Rattle.std.specs.Prelude.{Some};
ghost use Rattle.engine.specs.Texts.{arc_lines, arc_text, job_text};

use crate::arc::Arc;
use crate::job::Job;
use std::fmt;

impl fmt::Display for Arc {
    ghost output = { λ arc. Some (arc_text arc) };

    fn fmt<W: fmt::Write>(&self, f: &mut fmt::Formatter<W>) -> fmt::Result {
        write!(f, "{} {} {}", self.tail, self.head, self.limit)
    }
}

// Links, each on a line of its own.
#[derive(Clone, Copy)]
struct Lines<'a>(&'a [Arc]);

impl fmt::Display for Lines<'_> {
    ghost output = { λ lines. Some (arc_lines lines.0.now) };

    fn fmt<W: fmt::Write>(&self, f: &mut fmt::Formatter<W>) -> fmt::Result {
        for arc in self.0 {
            writeln!(f, "{arc}")?;
        }
        Ok(())
    }
}

impl fmt::Display for Job<'_> {
    ghost output = { λ job. Some (job_text job) };

    fn fmt<W: fmt::Write>(&self, f: &mut fmt::Formatter<W>) -> fmt::Result {
        let at = self.at();
        writeln!(f, "{} {} {} {}", at.feed1, at.feed2, at.drain1, at.drain2)?;
        let most = self.most();
        writeln!(
            f,
            "{} {} {} {}",
            most.feed1, most.feed2, most.drain1, most.drain2
        )?;
        write!(f, "{}", Lines(self.links()))
    }
}
