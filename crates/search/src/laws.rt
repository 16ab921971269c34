// The laws that hold of every mesh. Each function's contract is one of them.
ghost use Rattle.search.specs.Laws.{RowLaw, OnceLaw};

// Every link stands in the rows of its two ends and nowhere else, in ascending order.
pub fn rows_hold_incident_links()
    ensures { RowLaw }
{}

// A path without a repeated cabinet has no link twice.
pub fn simple_paths_have_no_link_twice()
    ensures { OnceLaw }
{}
