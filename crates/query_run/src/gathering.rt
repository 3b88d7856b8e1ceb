//! What a run makes of the rows that remain.

ghost use Rattle.std.specs.Prelude.{◌≡◌, ◌<◌, ◌++◌, ◌^◌, ◌∷◌, [], ℕ, List, None, true, false, length, ◌≤◌, IfOk, IfErr, OnOk};
ghost use Rattle.rm_base.specs.declared.select.GroupSpec as spec_of;
ghost use Rattle.rm_base.specs.declared.select.OrderSpec as order_of;
ghost use Rattle.rm_base.specs.declared.value.Value as cell;
ghost use Rattle.rm_rules.specs.AllFits.{result_fits};
ghost use Rattle.rm_rules.specs.Grouping.{first_bad, grouped};
ghost use Rattle.rm_rules.specs.Meaning.{answer_of, meant, meant_groups};
ghost use Rattle.grouping.specs.Ending.{IsGroupedInOrder};
ghost use Rattle.spill_files.specs.declared.error.RunError.TheVariants.{NeedsSpill};
ghost use Rattle.spill_files.specs.Errors.{stop_after};
ghost use Rattle.tuples.specs.Tuple.{tuple_values};
ghost use Rattle.query_run.specs.Gathering.{Gathers, GivesFew, gathered_charge};
ghost use Rattle.query_run.specs.Running.{IsEndOf, stop_of};
ghost use Rattle.query_run.specs.Running.RunOutcome.{Meant};

use crate::run::RunEnd;
use grouping::answer::{Ordered, answer_of};
use grouping::batch::Batch;
use grouping::groups::{Groups, GroupsEnd};
use rm_base::row::Row;
use rm_base::select::{GroupSpec, Select};
use spill_files::error::RunError;
use std::alloc::Global;
use tuples::tuple::Tuple;

/// The end of a run with these rows.
fn answered(rows: Vec<Row>) -> RunEnd
    ensures outcome { IsEndOf (Meant (answer_of rows.items)) result }
    ensures going { stop_of result ≡ None }
{
    match answer_of(rows) {
        Ordered::Rows(rows) => RunEnd::Answer(rows),
        Ordered::AnswerTooLarge(count) => RunEnd::AnswerTooLarge(count),
    }
}

/// The end of a run with these groups.
fn end_of(groups: GroupsEnd) -> RunEnd
    ensures outcome { (spec : spec_of.GroupSpec) (order : order_of.OrderSpec) (rows : List (List cell.Value))
        → IsGroupedInOrder spec order rows groups
        → IsEndOf (Meant (meant_groups (first_bad spec rows) order (grouped spec rows))) result }
    ensures going { stop_of result ≡ None }
{
    match groups {
        GroupsEnd::Rows(rows) => answered(rows.into_vec()),
        GroupsEnd::SumOutOfRange(column, sum) => RunEnd::SumOutOfRange(column, sum),
    }
}

/// The rows that tuples show, or their groups.
#[derive(Drop)]
pub enum Gathering {
    Shown(Batch),
    Grouped(Groups),
}

impl Gathering {
    /// Of no rows.
    pub fn new(alloc: Global, select: &Select, room: u64) -> Result<Gathering, RunError>
        requires { room < 2 ^ 62 }
        ensures ok { IfOk result (λ gathering. Gathers select.now room [] gathering) }
        ensures spills { IfErr result (λ e. e ≡ NeedsSpill → room < gathered_charge select.now.items select.now.groups []) }
        ensures unstopped { stop_after result ≡ None }
    {
        match &select.groups {
            None => Ok(Gathering::Shown(Batch::new(alloc, &select.order, room)?)),
            Some(keys) => {
                let spec = GroupSpec {
                    keys: keys.copy(alloc)?,
                    items: select.items.copy(alloc)?,
                };
                Ok(Gathering::Grouped(Groups::new(alloc, &spec, room)?))
            }
        }
    }

    /// Takes one row more.
    pub fn add(&mut self, alloc: Global, select: &Select, tuple: Tuple) -> Result<(), RunError>
        ensures ok { (room : ℕ) (rows : List (List cell.Value)) → length rows < 2 ^ 63 → Gathers select.now room rows self.old
            → OnOk result (Gathers select.now room (rows ++ tuple_values tuple.entry ∷ []) self.new) }
        ensures spills { (room : ℕ) (rows : List (List cell.Value)) → Gathers select.now room rows self.old
            → IfErr result (λ e. e ≡ NeedsSpill → room < gathered_charge select.now.items select.now.groups (rows ++ tuple_values tuple.entry ∷ [])) }
        ensures unstopped { stop_after result ≡ None }
    {
        match self {
            Gathering::Shown(batch) => batch.add_shown(alloc, select.items.as_slice(), tuple),
            Gathering::Grouped(groups) => groups.add(alloc, tuple),
        }
    }

    /// The end of a run with these rows.
    pub fn finish(self, alloc: Global, select: &Select) -> Result<RunEnd, RunError>
        requires { GivesFew self }
        ensures ok { (room : ℕ) (rows : List (List cell.Value)) → length rows < 2 ^ 63 → Gathers select.now room rows self
            → IfOk result (λ end. IsEndOf (Meant (meant select.now rows)) end) }
        ensures fits { (room : ℕ) (rows : List (List cell.Value)) → length rows < 2 ^ 63 → Gathers select.now room rows self
            → OnOk result (result_fits room select.now.items select.now.groups rows ≡ true) }
        ensures spills { (room : ℕ) (rows : List (List cell.Value)) → length rows < 2 ^ 63 → Gathers select.now room rows self
            → IfErr result (λ e. e ≡ NeedsSpill → result_fits room select.now.items select.now.groups rows ≡ false) }
        ensures unstopped { stop_after result ≡ None }
        ensures going { IfOk result (λ end. stop_of end ≡ None) }
    {
        match self {
            Gathering::Shown(batch) => Ok(answered(batch.finish())),
            Gathering::Grouped(groups) => {
                let end = groups.finish_in_order(alloc, &select.order)?;
                Ok(end_of(end))
            }
        }
    }
}
