ghost use Rattle.std.specs.Prelude.{◌≡◌};
ghost use Rattle.tuples.specs.Tuple.{tuple_values};
ghost use Rattle.spill_files.specs.RunRow.{run_row};

use rm_base::row::Row;
use tuples::tuple::Tuple;

/// A row of a run: one of its own, or rows of tables side by side.
#[derive(Debug, Drop)]
pub enum RunRow<'a> {
    Made(Row),
    Joined(Tuple<'a>),
}

impl<'a> RunRow<'a> {
    pub fn tuple(&self) -> Tuple<'_>
        ensures { tuple_values result ≡ run_row self.now }
    {
        match self {
            RunRow::Made(row) => Tuple::one(row),
            RunRow::Joined(tuple) => *tuple,
        }
    }
}
