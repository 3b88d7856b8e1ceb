//! Rows as an answer, where there is room for them.

ghost use Rattle.std.specs.Prelude.{◌≡◌, ◌≤◌, ◌-◌, ◌^◌, min};
ghost use Rattle.rm_base.specs.declared.limits.TheConstants.{ANSWER_MOST};
ghost use Rattle.rm_rules.specs.Meaning.{answer_of, fitting};
ghost use Rattle.grouping.specs.Answering.{outcome_of};

use rm_base::limits::ANSWER_MOST;
use rm_base::row::Row;
use rm_base::row_list::RowList;
use tuples::tuple::Tuple;

/// The rows of an answer in order, or the number of first rows that an answer has room for.
#[derive(Debug, Drop)]
pub enum Ordered {
    Rows(RowList),
    AnswerTooLarge(u64),
}

/// How many first rows there is room for.
fn fitting(mut room: u64, rows: &[Row]) -> usize
    requires { room ≤ ANSWER_MOST }
    ensures { result ≡ fitting room rows.now }
{
    let mut count = 0;
    for row in rows {
        let measure = Tuple::one(row).measure();
        if measure > room {
            return count;
        }
        room -= measure;
        count += 1;
    }
    count
}

/// Rows that are in order as an answer. It takes no memory.
pub fn answer_of(rows: Vec<Row>) -> Ordered
    ensures { outcome_of result ≡ answer_of rows.items }
{
    let count = fitting(ANSWER_MOST, &rows);
    if count < rows.len() {
        Ordered::AnswerTooLarge(count as u64)
    } else {
        Ordered::Rows(RowList::of(rows))
    }
}
